// The lent buffers and the store: what a run starts from, and what it leaves.
ghost use Rattle.std.specs.Prelude.{◌≡◌, ◌*◌, length};
ghost use Rattle.model.specs.Limits.{port_count, variable_count};
ghost use Rattle.model.specs.Stopping.{words, words_from};
ghost use Rattle.model.specs.Records.{Bytes};
ghost use Rattle.stepping.specs.Machines.{held};
ghost use Rattle.stepping.specs.Buffers.{Sized, Stored, with_variables, with_outputs};

use crate::store::Store;
use records::words::{put_word, word_at};

fn load_marks(marks: &[u8], to: &mut [u32])
    requires { length marks.now ≡ length to.old }
    ensures { to.new ≡ marks.now }
{
    for (i, mark) in marks.iter().enumerate() {
        to[i] = u32::from(*mark);
    }
}

pub fn store_marks(from: &[u32], marks: &mut [u8])
    requires { (length from.now ≡ length marks.old) × (Bytes from.now) }
    ensures { marks.new ≡ from.now }
{
    for (i, mark) in from.iter().enumerate() {
        marks[i] = *mark as u8;
    }
}

// Numbers of 4 bytes each, read from bytes.
pub fn load_words(bytes: &[u8], to: &mut [u32])
    requires { length bytes.now ≡ 4 * length to.old }
    ensures { to.new ≡ words_from bytes.now 0 (length to.old) }
{
    for (i, x) in to.iter_mut().enumerate() {
        *x = word_at(bytes, 4 * i);
    }
}

// Numbers written over bytes, 4 to each.
pub fn store_words(from: &[u32], bytes: &mut [u8])
    requires { length bytes.old ≡ 4 * length from.now }
    ensures { bytes.new ≡ words from.now }
{
    for (i, x) in from.iter().enumerate() {
        put_word(&mut bytes[4 * i..], *x);
    }
}

impl Store {
    // The variables that a run starts with.
    pub fn load_variables(&mut self, variables: &[u32])
        requires { length variables.now ≡ variable_count }
        ensures { held self.new ≡ with_variables variables.now (held self.old) }
    {
        self.variables.copy_from_slice(variables);
    }

    // The outputs that a run taken up starts with.
    pub fn load_outputs(&mut self, levels: &[u32], marks: &[u8])
        requires { (length levels.now ≡ port_count) × (length marks.now ≡ port_count) }
        ensures { held self.new ≡ with_outputs levels.now marks.now (held self.old) }
    {
        self.levels.copy_from_slice(levels);
        load_marks(marks, &mut self.marks);
    }

    // What a run leaves.
    pub fn leave(&self, variables: &mut [u32], levels: &mut [u32], marks: &mut [u8])
        requires { (Sized variables.old levels.old marks.old) × (Bytes (held self.now).marks) }
        ensures { Stored (held self.now) variables.new levels.new marks.new }
    {
        variables.copy_from_slice(&self.variables);
        levels.copy_from_slice(&self.levels);
        store_marks(&self.marks, marks);
    }
}
