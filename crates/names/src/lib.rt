// Names: whether bytes are UTF-8, in one pass over their characters.
#![tactic(auto)]

ghost use Rattle.std.specs.Prelude.{◌≡◌, ◌≤◌, length, get_or};
ghost use Rattle.names.specs.Char.{two, three, four, wide};
ghost use Rattle.names.specs.Name.{is_name, NamedTo};
ghost use Rattle.names.specs.Place.{EndsAt, Leading, between, TellsMore, is_second};

use plain::{bits_of, is_plain};

// A byte; past the end 0, which is no second byte of any character.
fn byte(s: &[u8], i: usize) -> u8
    ensures { result ≡ get_or s.now i 0 }
{
    s.get(i).copied().unwrap_or(0)
}

// A third or fourth byte, and a second one of two.
fn is_more(b: u8) -> bool
    ensures { result ≡ between 0x80 0xC0 b }
{
    matches!(b, 0x80..0xC0)
}

// Below 0x40 where it is one: several are tested at once.
fn above(b: u8) -> u8
    ensures { TellsMore b result }
{
    b ^ 0x80
}

// A second byte of three or four, behind the first.
#[tactic(auto, unfolding(crate::specs::Place::is_second))]
fn is_second(b: u8, c: u8) -> bool
    ensures { result ≡ is_second b c }
{
    match b {
        0xE0 => matches!(c, 0xA0..0xC0),
        0xED => matches!(c, 0x80..0xA0),
        0xF0 => matches!(c, 0x90..0xC0),
        0xF4 => matches!(c, 0x80..0x90),
        _ => is_more(c),
    }
}

// Where a character of two, three or four bytes ends that begins at a place, with byte b.
// They stay three: each meets a format of its own (`EndsAt two`, `three`, `four`), which a size alone does not choose.
fn two_end(s: &[u8], at: usize, b: u8) -> Option<usize>
    requires { Leading s.now at b 0x80 0xE0 }
    ensures { EndsAt two s.now at result }
{
    if b < 0xC2 {
        return None;
    }
    is_more(byte(s, at + 1)).then_some(at + 2)
}

fn three_end(s: &[u8], at: usize, b: u8) -> Option<usize>
    requires { Leading s.now at b 0xE0 0xF0 }
    ensures { EndsAt three s.now at result }
{
    if s.len() - at < 3 {
        return None;
    }
    let c = s[at + 1];
    if 0x3F < (above(c) | above(s[at + 2])) {
        return None;
    }
    is_second(b, c).then_some(at + 3)
}

fn four_end(s: &[u8], at: usize, b: u8) -> Option<usize>
    requires { Leading s.now at b 0xF0 0x100 }
    ensures { EndsAt four s.now at result }
{
    if 0xF4 < b {
        return None;
    }
    if s.len() - at < 4 {
        return None;
    }
    let c = s[at + 1];
    if 0x3F < (above(c) | above(s[at + 2]) | above(s[at + 3])) {
        return None;
    }
    is_second(b, c).then_some(at + 4)
}

fn wide_end(s: &[u8], at: usize, b: u8) -> Option<usize>
    requires { Leading s.now at b 0x80 0x100 }
    ensures { EndsAt wide s.now at result }
{
    match b {
        0x00..0xE0 => two_end(s, at, b),
        0xE0..0xF0 => three_end(s, at, b),
        _ => four_end(s, at, b),
    }
}

// The place behind plain bytes, eight at a time.
fn eights_end(s: &[u8], at: usize) -> usize
    requires { at ≤ length s.now }
    ensures { NamedTo s.now at result }
{
    let n = (s.len() - at) / 8;
    for k in 0..n {
        let i = at + 8 * k;
        if 0x7F < bits_of::<8>(s, i) {
            return i;
        }
    }
    at + 8 * n
}

// One character after the other. Eights are tried behind a plain byte at each eighth place, so that no byte is looked at thrice.
// The place is tested and then indexed: `while let Some(&b) = s.get(at)` took a fifth longer on texts of plain and wide characters.
fn is_mixed_name(s: &[u8]) -> bool
    ensures { result ≡ is_name s.now }
{
    let mut at = 0;
    while at < s.len() {
        let b = s[at];
        if 0x7F < b {
            let Some(end) = wide_end(s, at, b) else {
                return false;
            };
            at = end;
        } else {
            at += 1;
            if at % 8 == 0 {
                at = eights_end(s, at);
            }
        }
    }
    true
}

// Most names are plain, but for those that begin with a wide character.
pub fn is_name(s: &[u8]) -> bool
    ensures { result ≡ is_name s.now }
{
    (byte(s, 0) < 0x80 && is_plain(s)) || is_mixed_name(s)
}
