// Writing a number by its sign and its magnitude, in groups of seven bits: `pos a` is a, and `negsuc a` is -(a + 1), whose bits are those of a turned over.
ghost use Rattle.std.specs.Prelude.{◌≡◌, leb as is_le, pos, length};
ghost use Rattle.format.specs.Write.{Writes};
ghost use Rattle.leb128.specs.Leb.{limit, leb};
ghost use Rattle.leb128.specs.Parts.{by_sign, ones_of};

use crate::Parts;
use format::{Refusal, Written};

// What a last byte holds is below this.
fn last_limit(signed: bool) -> u64
    ensures { result ≡ limit signed }
{
    if signed { 0x40 } else { 0x80 }
}

// The seven bits that a negative number turns over in each group.
pub fn flip(neg: bool) -> u8
    ensures { result ≡ ones_of neg 7 }
{
    if neg { 0x7F } else { 0 }
}

// How many bytes a number of this magnitude takes.
pub fn size(signed: bool, a: u64) -> usize
    ensures { result ≡ length (leb signed (pos a)) }
{
    let limit = last_limit(signed);
    let mut w = a;
    let mut n = 1;
    // What is left of the number ends the loop, no count does.
    while limit <= w {
        w = w / 128;
        n += 1;
    }
    n
}

// Nothing is measured where there is room for any number.
fn fits(signed: bool, a: u64, room: usize) -> bool
    ensures { result ≡ is_le (length (leb signed (pos a))) room }
{
    10 <= room || size(signed, a) <= room
}

// Measured first, so that a refusal changes nothing, and then written forwards.
fn encode_long(signed: bool, v: Parts, out: &mut [u8]) -> Written
    ensures { Writes (leb signed (by_sign v.neg v.magnitude)) out.old out.new result }
{
    if !fits(signed, v.magnitude, out.len()) {
        return Err(Refusal::OutputShort);
    }
    let limit = last_limit(signed);
    let turn = flip(v.neg);
    let mut w = v.magnitude;
    let mut i = 0;
    // The same.
    while limit <= w {
        out[i] = ((w & 0x7F) as u8 ^ turn) | 0x80;
        w = w >> 7;
        i += 1;
    }
    out[i] = (w & 0x7F) as u8 ^ turn;
    Ok(i + 1)
}

// Most numbers take one byte.
pub fn encode(signed: bool, v: Parts, out: &mut [u8]) -> Written
    ensures { Writes (leb signed (by_sign v.neg v.magnitude)) out.old out.new result }
{
    if last_limit(signed) <= v.magnitude {
        return encode_long(signed, v, out);
    }
    if out.is_empty() {
        return Err(Refusal::OutputShort);
    }
    out[0] = (v.magnitude & 0x7F) as u8 ^ flip(v.neg);
    Ok(1)
}
