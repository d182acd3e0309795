// Reading a number by its sign and its magnitude: one pass, the shortest form only. Only a last byte is looked at for its sign, the width and padding.
ghost use Rattle.std.specs.Prelude.{◌≡◌, cond, ◌&&◌, ◌-◌, ◌*◌, ◌%◌, ◌≤◌, ◌<◌, ◌^◌, leb as is_le, pos, length, drop, None};
ghost use Rattle.leb128.specs.Leb.{within, leb, last_of, short, sign_bits};
ghost use Rattle.leb128.specs.Parts.{by_sign, ones_of, join_by, short_at, parts_of, Topped, WholeByte, CutByte};

use crate::Parts;
use crate::writer::flip;

// Whether a last byte's sign bit is set.
fn sign(signed: bool, b: u8) -> bool
    ensures { result ≡ signed && is_le 64 b }
{
    signed && 0x40 <= b
}

// The k bits that a negative number turns over.
fn ones(neg: bool, k: u32) -> u64
    requires { k < 64 }
    ensures { result ≡ ones_of neg k }
{
    if neg { (1 << k) - 1 } else { 0 }
}

// Whether a number of this magnitude takes no more bytes than there are groups of seven bits in `shift`.
fn shorter(signed: bool, a: u64, shift: u32) -> bool
    requires { (shift < 64) × (shift % 7 ≡ 0) }
    ensures { result ≡ is_le (7 * length (leb signed (pos a))) shift }
{
    if shift == 0 {
        return false;
    }
    if signed {
        return a >> (shift - 1) == 0;
    }
    a >> shift == 0
}

// The shortest form only: with anything in its last group, `top`, a number needs it.
fn shortest(signed: bool, v: Parts, top: u8, shift: u32, end: usize) -> Option<(Parts, usize)>
    requires { Topped shift top v.magnitude }
    ensures { result ≡ short_at signed shift (by_sign v.neg v.magnitude) end }
{
    if top == 0 && shorter(signed, v.magnitude, shift) {
        return None;
    }
    Some((v, end))
}

// A last byte whose seven bits are all within the width: v is all that was read.
fn whole(signed: bool, b: u8, v: u64, shift: u32, end: usize) -> Option<(Parts, usize)>
    requires { WholeByte shift b v }
    ensures { result ≡ short_at signed shift (join_by shift (last_of signed b) (v % 2 ^ shift)) end }
{
    let neg = sign(signed, b);
    let top = b ^ flip(neg);
    let magnitude = v ^ ones(neg, shift + 7);
    shortest(signed, Parts { neg, magnitude }, top, shift, end)
}

// The bits of a number without its sign.
fn value_bits(signed: bool, bits: u32) -> u32
    requires { 1 ≤ bits }
    ensures { result ≡ bits - sign_bits signed }
{
    if signed { bits - 1 } else { bits }
}

// Whether a last byte is within the width, with so many bits left for it.
pub fn is_within(signed: bool, bits: u32, b: u8) -> bool
    requires { (1 ≤ bits) × (b < 128) }
    ensures { result ≡ within signed bits (last_of signed b) }
{
    if 7 <= bits {
        return true;
    }
    let top = b ^ flip(sign(signed, b));
    top >> value_bits(signed, bits) == 0
}

// The last byte that the width allows, with so many bits left for it.
fn last(signed: bool, bits: u32, b: u8, low: u64, shift: u32, end: usize) -> Option<(Parts, usize)>
    requires { CutByte bits shift b low }
    ensures { result ≡ cond (within signed bits (last_of signed b)) (short_at signed shift (join_by shift (last_of signed b) low) end) None }
{
    let neg = sign(signed, b);
    let top = b ^ flip(neg);
    if top >> value_bits(signed, bits) != 0 {
        return None;
    }
    let magnitude = (top as u64) << shift | (low ^ ones(neg, shift));
    shortest(signed, Parts { neg, magnitude }, top, shift, end)
}

// A number of so many bits at a place, in its shortest form. No width in use is a multiple of seven, so the last group that a width allows is cut.
#[inline(always)]
pub fn decode(signed: bool, bits: u32, s: &[u8], at: usize) -> Option<(Parts, usize)>
    requires { (1 ≤ bits % 7) × (bits ≤ 64) }
    ensures { result ≡ parts_of s.now (short signed bits (drop at s.now)) }
{
    let mut v: u64 = 0;
    let mut shift: u32 = 0;
    let mut i = at;
    // The groups count the place and the shift alike: a loop over the bytes would count the shift beside it.
    while shift + 7 <= bits {
        if s.len() <= i {
            return None;
        }
        let b = s[i];
        v = v | ((b & 0x7F) as u64) << shift;
        i += 1;
        if b < 0x80 {
            return whole(signed, b, v, shift, i);
        }
        shift += 7;
    }
    if s.len() <= i {
        return None;
    }
    let b = s[i];
    if 0x80 <= b {
        return None;
    }
    last(signed, bits - shift, b, v, shift, i + 1)
}
