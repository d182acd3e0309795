// Upper-case hexadecimal: two characters a byte.
ghost use Rattle.std.specs.Prelude.{◌≡◌, ◌+◌, ◌*◌, ◌<◌, ◌≤◌, ◌∷◌, length, MatchOption, Ok};
ghost use Rattle.std.proofs.Math.Option.{none, some};
ghost use Rattle.format.specs.Write.{Writes};
ghost use Rattle.hex_text.specs.Hex.{char_of, digit_of, hex_of};
ghost use Rattle.hex_text.specs.Decode.{Decodes};

use format::{Refusal, Written};

// The digit that a character is.
#[tactic(auto, unfolding(crate::specs::Hex::digit_of))]
fn digit_of(c: u8) -> Option<u8>
    ensures { MatchOption result (digit_of c ≡ none) (λ d. digit_of c ≡ some d) }
{
    match c {
        b'0'..=b'9' => Some(c - b'0'),
        b'A'..=b'F' => Some(c - b'A' + 10),
        _ => None,
    }
}

// The character of a digit.
#[tactic(auto, unfolding(crate::specs::Hex::char_of))]
fn char_of(d: u8) -> u8
    requires { d < 16 }
    ensures { result ≡ char_of d }
{
    if d < 10 { b'0' + d } else { b'A' + (d - 10) }
}

// How many bytes a line holds, at the front of `out`; none where it is no pairs of digits, or there is no room for its bytes.
pub fn decode(line: &[u8], out: &mut [u8]) -> Option<usize>
    ensures { Decodes line.now out.old out.new result }
{
    let n = line.len() / 2;
    if line.len() % 2 == 1 {
        return None;
    }
    if out.len() < n {
        return None;
    }
    for i in 0..n {
        let high = digit_of(line[2 * i])?;
        let low = digit_of(line[2 * i + 1])?;
        out[i] = 16 * high + low;
    }
    Some(n)
}

// The digits of some bytes. Where they do not fit nothing is written.
pub fn put_hex(bytes: &[u8], out: &mut [u8]) -> Written
    ensures { Writes (hex_of bytes.now) out.old out.new result }
{
    if out.len() / 2 < bytes.len() {
        return Err(Refusal::OutputShort);
    }
    for (i, &b) in bytes.iter().enumerate() {
        out[2 * i] = char_of(b / 16);
        out[2 * i + 1] = char_of(b % 16);
    }
    Ok(2 * bytes.len())
}

// The digits of a number and, behind them, of some bytes.
pub fn put_answer(number: u8, bytes: &[u8], out: &mut [u8]) -> usize
    requires { 2 + 2 * length bytes.now ≤ length out.old }
    ensures { Writes (hex_of (number ∷ bytes.now)) out.old out.new (Ok result) }
{
    let _ = put_hex(&[number], out);
    let _ = put_hex(bytes, &mut out[2..]);
    2 + 2 * bytes.len()
}
