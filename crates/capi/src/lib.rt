// The entries for C and Rust, over numbers and slices: a slice passes as a pointer and a length. Each answers a number of document 01's table; beside a
// refusal every number that was lent is 0, but for the room used, which stays, and every byte stays. `capi_c` exports them.
#![tactic(auto)]

mod told;

ghost use Rattle.std.specs.Prelude.{◌≡◌, pos, length as long, drop};
ghost use Rattle.format.specs.Read.{reading};
ghost use Rattle.format.specs.Write.{writing};
ghost use Rattle.leb128.specs.Leb.{uleb, sleb};
ghost use Rattle.leb128.proofs.Formats.{u32 as u32s, u64 as u64s, s32, s64, index};
ghost use Rattle.names.specs.Name.{is_name};
ghost use Rattle.exprs.specs.Scan.{answer};
ghost use Rattle.exprs.specs.Const.{const_of};
ghost use Rattle.sections.specs.Section.{ending};
ghost use Rattle.module.specs.Finish.{finishing};
ghost use Rattle.thriftbell.specs.Add.{adding};
ghost use Rattle.thriftbell.specs.Read.{reading as readingItem};
ghost use Rattle.lines.specs.Answer.{answering};
ghost use Rattle.capi.specs.Outcomes.{stated, written, valued, added, took, answered, numbered};

use thriftbell::{Given, State};
use told::{tell, tell_added, tell_read, tell_reply, tell_taken, tell_written};

// Writing a number at the front of `out`: 0 and its length, or 10.
pub fn thriftbell_encode_u32(v: u32, out: &mut [u8], length: &mut usize) -> u32
    ensures { written result length.new out.new ≡ writing (uleb v) out.old }
{
    tell_written(numbers::encode_u32(v, out), length)
}

pub fn thriftbell_encode_u64(v: u64, out: &mut [u8], length: &mut usize) -> u32
    ensures { written result length.new out.new ≡ writing (uleb v) out.old }
{
    tell_written(numbers::encode_u64(v, out), length)
}

pub fn thriftbell_encode_i32(v: i32, out: &mut [u8], length: &mut usize) -> u32
    ensures { written result length.new out.new ≡ writing (sleb v) out.old }
{
    tell_written(numbers::encode_i32(v, out), length)
}

pub fn thriftbell_encode_i64(v: i64, out: &mut [u8], length: &mut usize) -> u32
    ensures { written result length.new out.new ≡ writing (sleb v) out.old }
{
    tell_written(numbers::encode_i64(v, out), length)
}

// An index of a heap type: a signed number of 64 bits.
pub fn thriftbell_encode_index(v: u32, out: &mut [u8], length: &mut usize) -> u32
    ensures { written result length.new out.new ≡ writing (sleb (pos v)) out.old }
{
    tell_written(numbers::encode_index(v, out), length)
}

// Reading a number from the place `at` on, in its shortest form: 0, its value and where it ended, or 11.
pub fn thriftbell_decode_u32(s: &[u8], at: usize, value: &mut u32, end: &mut usize) -> u32
    ensures { valued result value.new end.new ≡ reading 0 s.now (u32s.parse (drop at s.now)) }
{
    tell_read(numbers::decode_u32(s, at), 0, value, end)
}

pub fn thriftbell_decode_u64(s: &[u8], at: usize, value: &mut u64, end: &mut usize) -> u32
    ensures { valued result value.new end.new ≡ reading 0 s.now (u64s.parse (drop at s.now)) }
{
    tell_read(numbers::decode_u64(s, at), 0, value, end)
}

pub fn thriftbell_decode_i32(s: &[u8], at: usize, value: &mut i32, end: &mut usize) -> u32
    ensures { valued result value.new end.new ≡ reading (pos 0) s.now (s32.parse (drop at s.now)) }
{
    tell_read(numbers::decode_i32(s, at), 0, value, end)
}

pub fn thriftbell_decode_i64(s: &[u8], at: usize, value: &mut i64, end: &mut usize) -> u32
    ensures { valued result value.new end.new ≡ reading (pos 0) s.now (s64.parse (drop at s.now)) }
{
    tell_read(numbers::decode_i64(s, at), 0, value, end)
}

pub fn thriftbell_decode_index(s: &[u8], at: usize, value: &mut u32, end: &mut usize) -> u32
    ensures { valued result value.new end.new ≡ reading 0 s.now (index.parse (drop at s.now)) }
{
    tell_read(numbers::decode_index(s, at), 0, value, end)
}

// How many bytes `thriftbell_encode_u32` writes.
pub fn thriftbell_encoding_size(n: u32) -> usize
    ensures { result ≡ long (uleb n) }
{
    numbers::encoding_size(n)
}

pub fn thriftbell_is_name(s: &[u8]) -> bool
    ensures { result ≡ is_name s.now }
{
    names::is_name(s)
}

// Whether the whole span is a constant expression: 0 or 5.
pub fn thriftbell_check_expr(s: &[u8]) -> u32
    ensures { result ≡ answer s.now }
{
    tell(exprs::check_expr(s))
}

// An expression made from a number: 0 and its length, or 10.
pub fn thriftbell_i32_const(v: i32, out: &mut [u8], length: &mut usize) -> u32
    ensures { written result length.new out.new ≡ writing (const_of 0x41 v) out.old }
{
    tell_written(exprs::i32_const(v, out), length)
}

pub fn thriftbell_i64_const(v: i64, out: &mut [u8], length: &mut usize) -> u32
    ensures { written result length.new out.new ≡ writing (const_of 0x42 v) out.old }
{
    tell_written(exprs::i64_const(v, out), length)
}

// Adding a record behind the room used: 0 and the room used then, or 1 to 7.
pub fn thriftbell_add(used: &mut usize, store: &mut [u8], words: &[u32], text: &[u8]) -> u32
    ensures { added result used.new store.new ≡ adding (stated used.old) store.old words.now text.now }
{
    tell_added(
        thriftbell::add(State { used: *used }, store, words, text),
        used,
    )
}

// The module of the store's frames, by an order list and a data count: 0 and its length, or 1, 8, 9, 10.
pub fn thriftbell_finish(
    used: usize,
    store: &[u8],
    order: &[u8],
    count: u32,
    out: &mut [u8],
    length: &mut usize,
) -> u32
    ensures { written result length.new out.new ≡ finishing (stated used) store.now (ending order.now (record { count = count })) out.old }
{
    tell_written(
        thriftbell::finish(State { used }, store, order, Given { count }, out),
        length,
    )
}

// The record of the item that begins the bytes: 0, how many words it has and bytes it took, or 11, 10.
pub fn thriftbell_read_item(
    id: u8,
    bytes: &[u8],
    out: &mut [u32],
    words: &mut usize,
    taken: &mut usize,
) -> u32
    ensures { took result words.new taken.new out.new ≡ readingItem id bytes.now out.old }
{
    tell_taken(thriftbell::read_item(id, bytes, out), words, taken)
}

// Answering a hex line, without its line feed: 0 and the answer line's length, or 10 where `out` has no room for two digits and twice `buffer`.
pub fn thriftbell_answer_line(
    line: &[u8],
    used: &mut usize,
    store: &mut [u8],
    buffer: &mut [u8],
    out: &mut [u8],
    length: &mut usize,
) -> u32
    ensures { answered result used.new length.new store.new buffer.new out.new ≡ numbered (answering (stated used.old) store.old buffer.old out.old line.now) }
{
    tell_reply(
        lines::answer(line, State { used: *used }, store, buffer, out),
        used,
        length,
    )
}
