// The second pass: the laid block, over the front of a lent buffer. Each block and what follows it is lent the rest of the buffer.
ghost use Rattle.std.specs.Prelude.{◌≡◌};
ghost use Rattle.model.specs.Records.{rec, kind_at, record_at, IF, TIMES, over};
ghost use Rattle.model.specs.Trees.{file_tree};
ghost use Rattle.model.specs.Layout.{layout};
ghost use Rattle.records.specs.Records.{record_of};
ghost use Rattle.records.specs.Blocks.{block_bytes};
ghost use Rattle.layout.specs.Written.{BlockFits, BlockLaid, SideFits, SideLaid, StatementFits, StatementLaid, FileFits};

use crate::lent::{MEETINGS, Source};
use crate::measure::Passage;
use crate::skips::{check_of, idle_at, write_idle};
use model::Settings;
use placing::clock::State;
use placing::pieces::{bytes_between, close_side, put_commands, put_step, put_tail};
use reading::blocks::closes;
use records::{Record, kind_at, kinds, record_at};
use timing::ticks::step_ticks;

impl<'a> Source<'a> {
    // The side of an IF at i, filled up to the tick `end` and closed by a record of that kind.
    #[cycle(writing)]
    fn write_side(
        &self,
        i: usize,
        start: State,
        end: u32,
        kind: u8,
        ifs: usize,
        meets: &[u32; MEETINGS],
        out: &mut [u8],
    ) -> Passage
        requires { SideFits self.now.file.now i self.now.to self.now.rack start end (rec kind 0 0 0 0 0) ifs meets.now out.old }
        ensures { SideLaid self.now.file.now i self.now.to self.now.rack start end (rec kind 0 0 0 0 0) ifs out.old out.new result }
    {
        let e = self.write_block(i, start, ifs, meets, out);
        let state = e.state;
        let at = bytes_between(start, state);
        Passage {
            state: close_side(&self.rack, state, end, kind, &mut out[at..]),
            next: e.next,
            ifs: e.ifs,
        }
    }

    // The IF at i, with the record r: where its sides meet was measured.
    #[cycle(writing)]
    fn write_branch(
        &self,
        i: usize,
        r: Record,
        from: State,
        ifs: usize,
        meets: &[u32; MEETINGS],
        out: &mut [u8],
    ) -> Passage
        requires { (StatementFits self.now.file.now i self.now.to self.now.rack from ifs meets.now out.old)
            × (record_of r ≡ record_at self.now.file.now i) × (kind_at self.now.file.now i ≡ IF) }
        ensures { StatementLaid self.now.file.now i self.now.to self.now.rack from ifs out.old out.new result }
    {
        let test = put_step(&self.rack, from, 1, r, out);
        let at = bytes_between(from, test);
        let end = meets[ifs];
        let first = self.write_side(
            i + 1,
            test,
            end,
            kinds::ELSE,
            ifs + 1,
            meets,
            &mut out[at..],
        );
        let one = first.state;
        let mid = bytes_between(from, one);
        let second = self.write_side(
            first.next + 1,
            test.back(0, one.records),
            end,
            kinds::END,
            first.ifs,
            meets,
            &mut out[mid..],
        );
        let two = second.state;
        Passage {
            state: two,
            next: second.next + 1,
            ifs: second.ifs,
        }
    }

    // The loop at i, with the record r.
    #[cycle(writing)]
    fn write_rounds(
        &self,
        i: usize,
        r: Record,
        from: State,
        ifs: usize,
        meets: &[u32; MEETINGS],
        out: &mut [u8],
    ) -> Passage
        requires { (StatementFits self.now.file.now i self.now.to self.now.rack from ifs meets.now out.old)
            × (record_of r ≡ record_at self.now.file.now i) × (kind_at self.now.file.now i ≡ TIMES) }
        ensures { StatementLaid self.now.file.now i self.now.to self.now.rack from ifs out.old out.new result }
    {
        let mut state = from;
        let mut next = i + 1;
        let mut k = ifs;
        for _round in 0..r.count {
            let at = bytes_between(from, state);
            let e = self.write_block(i + 1, state, k, meets, &mut out[at..]);
            state = e.state;
            next = e.next;
            k = e.ifs;
        }
        let at = bytes_between(from, state);
        let state = put_step(&self.rack, state, 1, check_of(r), &mut out[at..]);
        Passage {
            state,
            next: next + 1,
            ifs: k,
        }
    }

    // The statement at i.
    #[cycle(writing)]
    fn write_statement(
        &self,
        i: usize,
        from: State,
        ifs: usize,
        meets: &[u32; MEETINGS],
        out: &mut [u8],
    ) -> Passage
        requires { StatementFits self.now.file.now i self.now.to self.now.rack from ifs meets.now out.old }
        ensures { StatementLaid self.now.file.now i self.now.to self.now.rack from ifs out.old out.new result }
    {
        let r = record_at(self.file, i);
        if r.kind == kinds::IF {
            return self.write_branch(i, r, from, ifs, meets, out);
        }
        if let Some(idle) = idle_at(self.file, i, self.to, r, self.rack.period) {
            let state = write_idle(&self.rack, from, idle.ticks, r, out);
            let next = idle.next;
            return Passage { state, next, ifs };
        }
        if r.kind == kinds::TIMES {
            return self.write_rounds(i, r, from, ifs, meets, out);
        }
        let state = put_step(&self.rack, from, step_ticks(self.rack, r), r, out);
        let next = i + 1;
        Passage { state, next, ifs }
    }

    // The block at `from`, up to the record that closes it.
    #[cycle(writing)]
    pub fn write_block(
        &self,
        i: usize,
        at: State,
        ifs: usize,
        meets: &[u32; MEETINGS],
        out: &mut [u8],
    ) -> Passage
        requires { BlockFits self.now.file.now i self.now.to self.now.rack at ifs meets.now out.old }
        ensures { BlockLaid self.now.file.now i self.now.to self.now.rack at ifs out.old out.new result }
    {
        let mut state = at;
        let mut next = i;
        let mut k = ifs;
        // The index goes past whole blocks, so a `for` over it is no plainer.
        while next < self.to {
            if closes(kind_at(self.file, next)) {
                return Passage {
                    state,
                    next,
                    ifs: k,
                };
            }
            let done = bytes_between(at, state);
            let e = self.write_statement(next, state, k, meets, &mut out[done..]);
            state = e.state;
            next = e.next;
            k = e.ifs;
        }
        Passage {
            state,
            next,
            ifs: k,
        }
    }
}

// The whole laid file.
pub fn write_file(file: &[u8], rack: &Settings, meets: &[u32; MEETINGS], out: &mut [u8])
    requires { FileFits file.now rack.now meets.now out.old }
    ensures { out.new ≡ over (block_bytes (layout rack.now (file_tree file.now))) out.old }
{
    let at = put_commands(rack, State::START, out);
    let opened = State::START.commanded(rack);
    let source = Source {
        file,
        to: file.len() / 12,
        rack: *rack,
    };
    let e = source.write_block(0, opened, 0, meets, &mut out[at..]);
    let end = e.state;
    let tail = at + bytes_between(opened, end);
    put_tail(rack, end, &mut out[tail..]);
}
