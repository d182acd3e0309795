// Reading where elements go: what begins at a place of some bytes, and its words.
ghost use Rattle.std.specs.Prelude.{List, [], ◌∷◌, ℕ, ◌≤◌, length};
ghost use Rattle.format.specs.Count.{Appends};
ghost use Rattle.texts.specs.Judge.{text_most};
ghost use Rattle.parts.specs.Reading.{Reading};
ghost use Rattle.modes.specs.Mode.{mode_words, nowhere, place};
ghost use Rattle.modes.specs.declared.Mode.TheVariants.{ActiveTable};

use crate::Mode;
use format::{Done, Walk, append};
use parts::read_expr;
use words::read_index;

// Two words, one behind the other.
pub fn append_two(a: u32, b: u32, out: &mut [u32], s: Done) -> Done
    ensures { Appends (a ∷ b ∷ []) out.old s out.new result }
{
    let t = append(a, out, s);
    append(b, out, t)
}

// The mode word and the table flag.
pub fn append_mode(m: Mode, out: &mut [u32], s: Done) -> Done
    ensures { Appends (mode_words.print m) out.old s out.new result }
{
    match m {
        Mode::Active => append_two(2, 0, out, s),
        Mode::Passive => append_two(0, 0, out, s),
        Mode::ActiveTable => append_two(2, 1, out, s),
        Mode::Declared => append_two(1, 0, out, s),
    }
}

// Three unused words.
fn read_nowhere(at: usize, out: &mut [u32], s: Done) -> Walk
    ensures { (b : List ℕ) → Reading nowhere b at out.old s out.new result }
{
    let t = append(0, out, s);
    Some((at, append_two(0, 0, out, t)))
}

// The table, and the offset.
fn read_table_offset(b: &[u8], at: usize, out: &mut [u32], s: Done) -> Walk
    requires { length b.now ≤ text_most }
    ensures { Reading (place ActiveTable) b.now at out.old s out.new result }
{
    let (p, t) = read_index(b, at, out, s)?;
    read_expr(b, p, out, t)
}

pub fn read_place(m: Mode, b: &[u8], at: usize, out: &mut [u32], s: Done) -> Walk
    requires { length b.now ≤ text_most }
    ensures { Reading (place m) b.now at out.old s out.new result }
{
    match m {
        Mode::Active => {
            let t = append(0, out, s);
            read_expr(b, at, out, t)
        }
        Mode::ActiveTable => read_table_offset(b, at, out, s),
        Mode::Passive | Mode::Declared => read_nowhere(at, out, s),
    }
}
