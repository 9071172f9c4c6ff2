// Text put into a page, each piece after the one before.
#![tactic(auto)]

ghost use Rattle.std.specs.Prelude.{◌+◌, ◌≤◌, ◌≡◌, length};
ghost use Rattle.model.specs.Listing.{ascii, name, decimal, spaced, listed_numbers, line_text};
ghost use Rattle.text.specs.Pieces.{HasRoom, Put, PutWithin};

use model::{Line, Numbers};
use records::kinds;

// A buffer, and how much of it is written. Pieces are put by hand: `write!` promises its text where it succeeds, and not that it succeeds,
// and a listing is promised for every input.
#[derive(Drop)]
pub struct Page<'a> {
    pub bytes: &'a mut [u8],
    pub len: usize,
}

// The name of a record of a laid file.
fn name(kind: u8) -> &'static str
    ensures text { result.now ≡ ascii (name kind) }
    ensures short { length result.now ≤ 5 }
{
    match kind {
        kinds::SKIP => "SKIP",
        kinds::SET => "SET",
        kinds::READ => "READ",
        kinds::WRITE => "WRITE",
        kinds::IF => "IF",
        kinds::ELSE => "ELSE",
        kinds::END => "END",
        kinds::CHECK => "CHECK",
        kinds::BEAT => "BEAT",
        _ => "SAVE",
    }
}

impl<'a> Page<'a> {
    pub fn new(bytes: &'a mut [u8]) -> Page<'a>
        ensures same_reference { result.bytes.ghost_name ≡ bytes.entry.ghost_name }
        ensures same { result.bytes.now ≡ bytes.old }
        ensures empty { result.len ≡ 0 }
    {
        Page { bytes, len: 0 }
    }

    pub fn put_text(&mut self, text: &str)
        requires { HasRoom (length text.now) self.old }
        ensures { Put text.now self.old self.new }
    {
        let end = self.len + text.len();
        self.bytes[self.len..end].copy_from_slice(text.as_bytes());
        self.len = end;
    }

    // In decimal.
    pub fn put_number(&mut self, n: u32)
        requires { HasRoom 10 self.old }
        ensures { PutWithin 10 (decimal n) self.old self.new }
    {
        let mut digits = itoa::Buffer::new();
        self.put_text(digits.format(n));
    }

    // A space and each number.
    fn put_spaced(&mut self, numbers: &[u32])
        requires { HasRoom 44 self.old × (length numbers.now ≤ 4) }
        ensures { PutWithin 44 (spaced numbers.now) self.old self.new }
    {
        for n in numbers {
            self.put_text(" ");
            self.put_number(*n);
        }
    }

    fn put_numbers(&mut self, numbers: Numbers)
        requires { HasRoom 44 self.old }
        ensures { PutWithin 44 (spaced (listed_numbers numbers)) self.old self.new }
    {
        match numbers {
            Numbers::None => {}
            Numbers::One(a) => self.put_spaced(&[a]),
            Numbers::Two(a, b) => self.put_spaced(&[a, b]),
            Numbers::Three(a, b, c) => self.put_spaced(&[a, b, c]),
            Numbers::Four(a, b, c, d) => self.put_spaced(&[a, b, c, d]),
        }
    }

    pub fn put_line(&mut self, line: Line)
        requires { HasRoom 64 self.old }
        ensures { PutWithin 64 (line_text line) self.old self.new }
    {
        self.put_number(line.tick);
        self.put_text(" ");
        self.put_text(name(line.kind));
        self.put_numbers(line.numbers);
        self.put_text("\n");
    }
}
