// The sum of a line's bytes, which its last byte makes wrap to 00.
ghost use Rattle.std.specs.Prelude.{◌≡◌};
ghost use Rattle.hex_text.specs.Sum.{sum_of, check_of};

pub fn sum(bytes: &[u8]) -> u8
    ensures { result ≡ sum_of bytes.now }
{
    bytes.iter().fold(0, |s, b| s.wrapping_add(*b))
}

// The last byte of a line whose other bytes are these.
pub fn check_byte(bytes: &[u8]) -> u8
    ensures { result ≡ check_of bytes.now }
{
    0u8.wrapping_sub(sum(bytes))
}
