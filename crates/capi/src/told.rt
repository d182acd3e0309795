// Answers as numbers of document 01's table, and what they hold into numbers that were lent: 0 beside a refusal.
ghost use Rattle.std.specs.Prelude.{◌≡◌, List, ℕ};
ghost use Rattle.format.specs.Refusal.{told};
ghost use Rattle.format.specs.Write.{outcome};
ghost use Rattle.numbers.specs.Answers.{read_as};
ghost use Rattle.thriftbell.specs.Add.{outcome as addOutcome};
ghost use Rattle.thriftbell.specs.Read.{outcome as readOutcome};
ghost use Rattle.lines.specs.Answer.{outcome as lineOutcome};
ghost use Rattle.capi.specs.Outcomes.{stated, written, valued, added, took, answered, numbered};

use lines::Reply;
use thriftbell::{Added, Read, Refusal, Taken, Written};

// Whether something is as it should be: 0, or why it is not.
pub fn tell(r: Result<(), Refusal>) -> u32
    ensures { result ≡ told r }
{
    match r {
        Ok(()) => 0,
        Err(e) => e.number() as u32,
    }
}

// Writing a number, an expression or a module.
pub fn tell_written(w: Written, length: &mut usize) -> u32
    ensures { (out : List ℕ) → written result length.new out ≡ outcome w out }
{
    match w {
        Ok(n) => {
            *length = n;
            0
        }
        Err(e) => {
            *length = 0;
            e.number() as u32
        }
    }
}

// Reading a number of any width, with a sign or without.
pub fn tell_read<T: Copy>(r: Read<T>, zero: T, value: &mut T, end: &mut usize) -> u32
    ensures { valued result value.new end.new ≡ read_as zero r }
{
    match r {
        Some((v, e)) => {
            *value = v;
            *end = e;
            0
        }
        None => {
            *value = zero;
            *end = 0;
            Refusal::NothingToRead.number() as u32
        }
    }
}

// The room used stays beside a refusal.
pub fn tell_added(a: Added, used: &mut usize) -> u32
    ensures { (store : List ℕ) → added result used.new store ≡ addOutcome (stated used.old) a store }
{
    match a {
        Ok(state) => {
            *used = state.used;
            0
        }
        Err(e) => e.number() as u32,
    }
}

pub fn tell_taken(t: Taken, words: &mut usize, taken: &mut usize) -> u32
    ensures { (out : List ℕ) → took result words.new taken.new out ≡ readOutcome t out }
{
    match t {
        Ok(t) => {
            *words = t.words;
            *taken = t.bytes;
            0
        }
        Err(e) => {
            *words = 0;
            *taken = 0;
            e.number() as u32
        }
    }
}

pub fn tell_reply(a: Reply, used: &mut usize, length: &mut usize) -> u32
    ensures { (store buffer out : List ℕ) → answered result used.new length.new store buffer out ≡ numbered (lineOutcome a store buffer out) }
{
    *used = a.state.used;
    match a.line {
        Some(n) => {
            *length = n;
            0
        }
        None => {
            *length = 0;
            Refusal::OutputShort.number() as u32
        }
    }
}
