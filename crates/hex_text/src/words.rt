// Words of 32 bits, each in four bytes, low first.
ghost use Rattle.std.specs.Prelude.{◌≡◌, ◌+◌, ◌≤◌, length, drop};
ghost use Rattle.format.specs.Parsed.{got};
ghost use Rattle.frames.specs.Frames.{word32};
ghost use Rattle.hex_text.specs.Words.{Reads};

// The word at a place.
pub fn word_at(bytes: &[u8], at: usize) -> u32
    requires { at + 4 ≤ length bytes.now }
    ensures { word32.parse (drop at bytes.now) ≡ got result (drop (at + 4) bytes.now) }
{
    u32::from_le_bytes([bytes[at], bytes[at + 1], bytes[at + 2], bytes[at + 3]])
}

// Whether n words stand at the front of some bytes and `out` has room for them; then they are at its front, and else nothing was written.
pub fn read_words(bytes: &[u8], n: usize, out: &mut [u32]) -> bool
    ensures { Reads n bytes.now out.old out.new result }
{
    if bytes.len() / 4 < n {
        return false;
    }
    if out.len() < n {
        return false;
    }
    for i in 0..n {
        out[i] = word_at(bytes, 4 * i);
    }
    true
}
