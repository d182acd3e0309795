// Plain bytes, those below 0x80: many are tested at a step, by all their bits together.
#![tactic(auto)]

ghost use Rattle.std.specs.Prelude.{◌≡◌, ◌↔◌, true, ◌+◌, ◌≤◌, ◌<◌, length};
ghost use Rattle.plain.specs.Plain.{IsPlain, Bits, TellsPlain};

// All bits of N bytes from a place on.
pub fn bits_of<const N: usize>(s: &[u8], i: usize) -> u8
    requires { i + N ≤ length s.now }
    ensures { Bits s.now i (i + N) result }
{
    s[i..i + N].iter().fold(0, |all, b| all | b)
}

// All bits of at least N and fewer than twice as many bytes: those at the end and those at the front, which may be the same.
fn ends_of<const N: usize>(s: &[u8]) -> u8
    requires { (N ≤ length s.now) × (length s.now < N + N) }
    ensures { Bits s.now 0 (length s.now) result }
{
    bits_of::<N>(s, s.len() - N) | bits_of::<N>(s, 0)
}

fn is_few_plain(s: &[u8]) -> bool
    ensures { TellsPlain s.now result }
{
    s.iter().all(|b| *b < 0x80)
}

// Block by block, and the last bytes together with some of the block before them.
fn is_long_plain(s: &[u8]) -> bool
    requires { 32 ≤ length s.now }
    ensures { TellsPlain s.now result }
{
    for i in 0..s.len() / 32 {
        if 0x7F < bits_of::<32>(s, 32 * i) {
            return false;
        }
    }
    bits_of::<32>(s, s.len() - 32) < 0x80
}

pub fn is_plain(s: &[u8]) -> bool
    ensures { (result ≡ true) ↔ IsPlain s.now }
{
    match s.len() {
        0..=7 => is_few_plain(s),
        8..=15 => ends_of::<8>(s) < 0x80,
        16..=31 => ends_of::<16>(s) < 0x80,
        32..=63 => ends_of::<32>(s) < 0x80,
        _ => is_long_plain(s),
    }
}
