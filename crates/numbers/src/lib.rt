// Numbers as `Encode` of wasm-encoder's lib.rs writes them, in LEB128, and their readers: the argument of `leb128` at the widths in use.
#![tactic(auto)]

ghost use Rattle.std.specs.Prelude.{◌≡◌, pos, length, drop, ◌%◌, ◌≤◌, ◌<◌, ◌^◌};
ghost use Rattle.std.specs.Int.Signed.{mag};
ghost use Rattle.format.specs.Count.{Appends};
ghost use Rattle.format.specs.Read.{reading};
ghost use Rattle.format.specs.Write.{Writes};
ghost use Rattle.leb128.specs.Leb.{leb, uleb, sleb};
ghost use Rattle.leb128.proofs.Formats.{u_n, s_n, u32, u64, s32, s64, index};
ghost use Rattle.leb128.specs.Parts.{by_sign};
ghost use Rattle.numbers.specs.Answers.{read_as};

use format::{Done, Written};
use leb128::Parts;

// What a reader finds: a value and where it ended, or nothing.
pub type Read<T> = Option<(T, usize)>;

// Writers: at the front of `out`, the rest of a buffer from its current end on. They answer how many bytes they wrote, or that there is no room (10), and
// then they have changed nothing.
fn encode_natural(signed: bool, magnitude: u64, out: &mut [u8]) -> Written
    ensures { Writes (leb signed (pos magnitude)) out.old out.new result }
{
    let v = Parts {
        neg: false,
        magnitude,
    };
    leb128::encode(signed, v, out)
}

pub fn encode_u32(v: u32, out: &mut [u8]) -> Written
    ensures { Writes (uleb v) out.old out.new result }
{
    encode_natural(false, v as u64, out)
}

pub fn encode_u64(v: u64, out: &mut [u8]) -> Written
    ensures { Writes (uleb v) out.old out.new result }
{
    encode_natural(false, v, out)
}

// What is left of a number without its sign: -1 and 0 leave 0.
fn magnitude(v: i64) -> u64
    ensures { result ≡ mag v }
{
    if v < 0 { !v as u64 } else { v as u64 }
}

pub fn encode_i32(v: i32, out: &mut [u8]) -> Written
    ensures { Writes (sleb v) out.old out.new result }
{
    encode_i64(v as i64, out)
}

pub fn encode_i64(v: i64, out: &mut [u8]) -> Written
    ensures { Writes (sleb v) out.old out.new result }
{
    let parts = Parts {
        neg: v < 0,
        magnitude: magnitude(v),
    };
    leb128::encode(true, parts, out)
}

// An index of a heap type: a signed number of 64 bits.
pub fn encode_index(v: u32, out: &mut [u8]) -> Written
    ensures { Writes (sleb (pos v)) out.old out.new result }
{
    encode_natural(true, v as u64, out)
}

// How many bytes `encode_u32` writes.
pub fn encoding_size(n: u32) -> usize
    ensures { result ≡ length (uleb n) }
{
    leb128::size(false, n as u64)
}

// Behind what was appended before, as far as there is room (`format::Done`): a number that is not below 0, with or without a sign's bit.
fn append_natural(signed: bool, v: u64, out: &mut [u8], s: Done) -> Done
    ensures { Appends (leb signed (pos v)) out.old s out.new result }
{
    let at = s.count().min(out.len());
    match encode_natural(signed, v, &mut out[at..]) {
        Ok(k) => s.grown(k),
        Err(_) => s.grown(leb128::size(signed, v)),
    }
}

pub fn append_u32(v: u32, out: &mut [u8], s: Done) -> Done
    ensures { Appends (uleb v) out.old s out.new result }
{
    append_natural(false, v as u64, out, s)
}

pub fn append_u64(v: u64, out: &mut [u8], s: Done) -> Done
    ensures { Appends (uleb v) out.old s out.new result }
{
    append_natural(false, v, out, s)
}

pub fn append_index(v: u32, out: &mut [u8], s: Done) -> Done
    ensures { Appends (sleb (pos v)) out.old s out.new result }
{
    append_natural(true, v as u64, out, s)
}

// Readers: what stands in `s` from the place `at` on, however far that is. They answer a number in its shortest form and the place behind it, or that none
// begins there (11). Most numbers without a sign take one byte.
fn decode_unsigned(bits: u32, s: &[u8], at: usize) -> Read<u64>
    requires { (7 ≤ bits) × (1 ≤ bits % 7) × (bits ≤ 64) }
    ensures { read_as 0 result ≡ reading 0 s.now ((u_n bits).parse (drop at s.now)) }
{
    let b = *s.get(at)?;
    if b < 0x80 {
        return Some((u64::from(b), at + 1));
    }
    let (v, end) = leb128::decode(false, bits, s, at)?;
    Some((v.magnitude, end))
}

pub fn decode_u32(s: &[u8], at: usize) -> Read<u32>
    ensures { read_as 0 result ≡ reading 0 s.now (u32.parse (drop at s.now)) }
{
    let (v, end) = decode_unsigned(32, s, at)?;
    Some((v as u32, end))
}

pub fn decode_u64(s: &[u8], at: usize) -> Read<u64>
    ensures { read_as 0 result ≡ reading 0 s.now (u64.parse (drop at s.now)) }
{
    decode_unsigned(64, s, at)
}

// A number again, of its sign and its magnitude.
fn number(v: Parts) -> i64
    requires { v.magnitude < 2 ^ 63 }
    ensures { result ≡ by_sign v.neg v.magnitude }
{
    let a = v.magnitude as i64;
    if v.neg { !a } else { a }
}

fn decode_signed(bits: u32, s: &[u8], at: usize) -> Read<i64>
    requires { (1 ≤ bits % 7) × (bits ≤ 64) }
    ensures { read_as (pos 0) result ≡ reading (pos 0) s.now ((s_n bits).parse (drop at s.now)) }
{
    let (v, end) = leb128::decode(true, bits, s, at)?;
    Some((number(v), end))
}

pub fn decode_i32(s: &[u8], at: usize) -> Read<i32>
    ensures { read_as (pos 0) result ≡ reading (pos 0) s.now (s32.parse (drop at s.now)) }
{
    let (v, end) = decode_signed(32, s, at)?;
    Some((v as i32, end))
}

pub fn decode_i64(s: &[u8], at: usize) -> Read<i64>
    ensures { read_as (pos 0) result ≡ reading (pos 0) s.now (s64.parse (drop at s.now)) }
{
    decode_signed(64, s, at)
}

pub fn decode_index(s: &[u8], at: usize) -> Read<u32>
    ensures { read_as 0 result ≡ reading 0 s.now (index.parse (drop at s.now)) }
{
    let (v, end) = leb128::decode(true, 64, s, at)?;
    if v.neg || 0xFFFF_FFFF < v.magnitude {
        return None;
    }
    Some((v.magnitude as u32, end))
}
