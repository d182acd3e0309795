// Writing where elements go: its words at a place, and its bytes.
ghost use Rattle.std.specs.Prelude.{◌≡◌, List, ℕ, drop};
ghost use Rattle.parts.specs.Writing.{Writing};
ghost use Rattle.modes.specs.Mode.{mode_words, mode_read, nowhere, place};
ghost use Rattle.modes.specs.declared.Mode.TheVariants.{Active, ActiveTable};

use crate::Mode;
use format::{Done, Walk};
use parts::walk_expr;
use words::walk_index;

// The mode word and the table flag, which is set only if active.
pub fn find_mode(words: &[u32], at: usize) -> Option<Mode>
    ensures { result ≡ mode_read (mode_words.parse (drop at words.now)) }
{
    match words.get(at..)? {
        [2, 0, ..] => Some(Mode::Active),
        [2, 1, ..] => Some(Mode::ActiveTable),
        [0, 0, ..] => Some(Mode::Passive),
        [1, 0, ..] => Some(Mode::Declared),
        _ => None,
    }
}

// Three unused words, of which nothing is written.
fn walk_nowhere(words: &[u32], at: usize, s: Done) -> Walk
    ensures { (t out : List ℕ) → Writing nowhere t words.now at out s out result }
{
    match words.get(at..)? {
        [0, 0, 0, ..] => Some((at + 3, s)),
        _ => None,
    }
}

// An unused word, and the offset.
fn walk_offset(words: &[u32], at: usize, text: &[u8], out: &mut [u8], s: Done) -> Walk
    ensures { Writing (place Active) text.now words.now at out.old s out.new result }
{
    if *words.get(at)? != 0 {
        return None;
    }
    walk_expr(words, at + 1, text, out, s)
}

// The table, and the offset.
fn walk_table_offset(words: &[u32], at: usize, text: &[u8], out: &mut [u8], s: Done) -> Walk
    ensures { Writing (place ActiveTable) text.now words.now at out.old s out.new result }
{
    let (p, t) = walk_index(words, at, out, s)?;
    walk_expr(words, p, text, out, t)
}

pub fn walk_place(m: Mode, words: &[u32], at: usize, text: &[u8], out: &mut [u8], s: Done) -> Walk
    ensures { Writing (place m) text.now words.now at out.old s out.new result }
{
    match m {
        Mode::Active => walk_offset(words, at, text, out, s),
        Mode::ActiveTable => walk_table_offset(words, at, text, out, s),
        Mode::Passive | Mode::Declared => walk_nowhere(words, at, s),
    }
}
