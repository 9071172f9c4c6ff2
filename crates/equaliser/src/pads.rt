// What the first pass keeps for the second, at the index of a record that opens a block: the ticks that pad both sides of an IF, or the time of
// a WHILE's body as the first.
#[derive(Clone, Copy)]
pub struct Pad {
    pub first: u32,
    pub second: u32,
}
