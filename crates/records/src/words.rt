// Numbers of 16 bits and of 32 as bytes, the lowest first.
ghost use Rattle.std.specs.Prelude.{◌≡◌, ◌+◌, ◌≤◌, length};
ghost use Rattle.model.specs.Records.{half_at, word_at, word_bytes, over};

// The number in the 2 bytes from at on.
pub fn half_at(bytes: &[u8], at: usize) -> u32
    requires { at + 2 ≤ length bytes.now }
    ensures { result ≡ half_at bytes.now at }
{
    u32::from(u16::from_le_bytes([bytes[at], bytes[at + 1]]))
}

// The number in the 4 bytes from at on. Not one function with the last: `from_le_bytes` is a method of each type, and of no trait.
pub fn word_at(bytes: &[u8], at: usize) -> u32
    requires { at + 4 ≤ length bytes.now }
    ensures { result ≡ word_at bytes.now at }
{
    u32::from_le_bytes([bytes[at], bytes[at + 1], bytes[at + 2], bytes[at + 3]])
}

// A number's bytes, over the first 4 of the buffer.
pub fn put_word(out: &mut [u8], n: u32)
    requires { 4 ≤ length out.old }
    ensures { out.new ≡ over (word_bytes n) out.old }
{
    out[..4].copy_from_slice(&n.to_le_bytes());
}
