// Constant expressions: where the first one at the front of some bytes ends, and two that are made from a number.
#![tactic(auto)]

ghost use Rattle.std.specs.Prelude.{◌≡◌, ◌<◌};
ghost use Rattle.format.specs.Refusal.{told};
ghost use Rattle.format.specs.Write.{Writes};
ghost use Rattle.exprs.specs.Const.{const_of};
ghost use Rattle.exprs.specs.Scan.{opcode as opcode_of, number_left, is_heap, Passed, expr_end, answer};
ghost use Rattle.exprs.specs.declared.Operand.TheVariants.{Heap};

use format::{Refusal, Written};

// An operand, or what is to come of it.
#[derive(Clone, Copy, Debug, PartialEq, Eq, Hash)]
pub enum Operand {
    Bytes(u32),
    Heap,
    Number { signed: bool, bits: u32 },
}

// What an instruction's first byte leads to.
#[derive(Clone, Copy, Debug, PartialEq, Eq, Hash)]
pub enum Next {
    End,
    Takes(Operand),
}

// An instruction's first byte.
#[tactic(auto, unfolding(crate::specs::Scan::opcode))]
fn opcode(b: u8) -> Option<Next>
    ensures { result ≡ opcode_of b }
{
    let operand = match b {
        0x0B => return Some(Next::End),
        0x41 => Operand::Number {
            signed: true,
            bits: 32,
        },
        0x42 => Operand::Number {
            signed: true,
            bits: 64,
        },
        0x43 => Operand::Bytes(4),
        0x44 => Operand::Bytes(8),
        0x23 | 0xD2 => Operand::Number {
            signed: false,
            bits: 32,
        },
        0xD0 => Operand::Heap,
        // Add, sub and mul of i32 and of i64, an arm each: a range is tested behind the jump table, which is measured to be slower.
        0x6A => Operand::Bytes(0),
        0x6B => Operand::Bytes(0),
        0x6C => Operand::Bytes(0),
        0x7C => Operand::Bytes(0),
        0x7D => Operand::Bytes(0),
        0x7E => Operand::Bytes(0),
        _ => return None,
    };
    Some(Next::Takes(operand))
}

// A number is read as far as its last byte; the standard's widths hold.
#[tactic(auto, unfolding(crate::specs::Scan::number_left))]
fn number_left(signed: bool, n: u32, b: u8) -> Option<u32>
    requires { 0 < n }
    ensures { result ≡ number_left signed n b }
{
    if b < 0x80 {
        return if leb128::is_within(signed, n, b) {
            Some(0)
        } else {
            None
        };
    }
    if 7 < n { Some(n - 7) } else { None }
}

// An abstract heap type is one byte.
#[tactic(auto, unfolding(crate::specs::Scan::is_heap))]
fn is_heap(b: u8) -> bool
    ensures { result ≡ is_heap b }
{
    matches!(b, 0x68..=0x75)
}

// Where a heap type ends.
fn heap_end(s: &[u8], i: usize) -> Option<usize>
    ensures { Passed Heap s.now i result }
{
    if is_heap(*s.get(i)?) {
        Some(i + 1)
    } else {
        None
    }
}

// Where the first expression ends, or that none begins the bytes.
pub fn expr_end(s: &[u8]) -> Option<usize>
    ensures { result ≡ expr_end s.now }
{
    let mut i = 0;
    let end = 'instructions: loop {
        let operand = match opcode(*s.get(i)?)? {
            Next::End => break 'instructions i + 1,
            Next::Takes(operand) => operand,
        };
        i += 1;
        match operand {
            // Bytes are passed unseen: those that are missing are missed at the next instruction.
            Operand::Bytes(n) => i += n as usize,
            Operand::Heap => i = heap_end(s, i)?,
            Operand::Number { signed, bits } => {
                let mut left = bits;
                while left != 0 {
                    let b = *s.get(i)?;
                    i += 1;
                    left = number_left(signed, left, b)?;
                }
            }
        }
    };
    Some(end)
}

// Whether the bytes are an expression, and no more.
pub fn check_expr(s: &[u8]) -> Result<(), Refusal>
    ensures { told result ≡ answer s.now }
{
    if expr_end(s) == Some(s.len()) {
        Ok(())
    } else {
        Err(Refusal::BadExpr)
    }
}

// An instruction with a signed number, and 0B. The number is lent all but the first byte and the last, so that a refusal changes nothing.
fn put_const(op: u8, v: i64, out: &mut [u8]) -> Written
    ensures { Writes (const_of op v) out.old out.new result }
{
    if out.len() < 2 {
        return Err(Refusal::OutputShort);
    }
    let end = out.len() - 1;
    let n = numbers::encode_i64(v, &mut out[1..end])?;
    out[0] = op;
    out[n + 1] = 0x0B;
    Ok(n + 2)
}

pub fn i32_const(v: i32, out: &mut [u8]) -> Written
    ensures { Writes (const_of 0x41 v) out.old out.new result }
{
    put_const(0x41, v as i64, out)
}

pub fn i64_const(v: i64, out: &mut [u8]) -> Written
    ensures { Writes (const_of 0x42 v) out.old out.new result }
{
    put_const(0x42, v, out)
}
