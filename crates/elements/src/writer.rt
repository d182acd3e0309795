// Writing element segments: their words at a place, and their bytes.
ghost use Rattle.std.specs.Prelude.{◌≡◌, false, true};
ghost use Rattle.format.specs.Count.{Appends, silent};
ghost use Rattle.format.specs.Walk.{Walks};
ghost use Rattle.types.specs.Words.{ref_words};
ghost use Rattle.parts.specs.Text.{expression};
ghost use Rattle.parts.specs.Listed.{listed};
ghost use Rattle.parts.specs.Writing.{Writing};
ghost use Rattle.elements.specs.Segment.{elements_words_of, elements_words};
ghost use Rattle.elements.specs.Item.{flag_of};
ghost use Rattle.elements.specs.Written.{is_other, is_said, head_of, type_of, functions_of, expressions_of, expressions_low, elements_of, elements_low};
ghost use Rattle.elements.specs.Section.{element_section};

use format::{Done, Walk, append};
use lists::{Member, walk_list};
use modes::{Mode, find_mode, walk_place};
use parts::walk_expr;
use refs::walk_ref;
use types::RefType;
use words::walk_unused;

// Whether expressions without a table are of another type than nullable unshared func, by its word h: only that type need not be said.
fn is_other(m: Mode, expressions: bool, h: u32) -> bool
    ensures { result ≡ is_other m expressions h }
{
    m == Mode::Active && expressions && h != refs::head(RefType::FUNCREF)
}

// The flag of a segment whose table, if it is active, is the one of its record.
fn flag(m: Mode, expressions: bool) -> u8
    ensures { result ≡ flag_of m expressions }
{
    if expressions {
        return match m {
            Mode::Active => 4,
            Mode::Passive => 5,
            Mode::ActiveTable => 6,
            Mode::Declared => 7,
        };
    }
    match m {
        Mode::Active => 0,
        Mode::Passive => 1,
        Mode::ActiveTable => 2,
        Mode::Declared => 3,
    }
}

// Whether the type is said, as 00 for functions.
fn is_said(other: bool, m: Mode) -> bool
    ensures { result ≡ is_said other m }
{
    other || m != Mode::Active
}

// The flag; 06 and table 0 for expressions without a table whose type has to be said.
fn append_flag(other: bool, m: Mode, expressions: bool, out: &mut [u8], s: Done) -> Done
    ensures { Appends (head_of other m expressions) out.old s out.new result }
{
    if other {
        let t = append(0x06, out, s);
        return append(0x00, out, t);
    }
    append(flag(m, expressions), out, s)
}

// Two unused words, 00 where the kind is said, and the list of indices.
fn walk_functions(said: bool, words: &[u32], at: usize, out: &mut [u8], s: Done) -> Walk
    ensures { Walks (elements_words_of false) (functions_of said) silent words.now at out.old s out.new result }
{
    let (p, t) = walk_unused(words, at, s)?;
    if said {
        let u = append(0x00, out, t);
        return walk_list(Member::Index, words, p, out, u);
    }
    walk_list(Member::Index, words, p, out, t)
}

// The reference type, which is written where it is said.
fn walk_type(said: bool, words: &[u32], at: usize, out: &mut [u8], s: Done) -> Walk
    ensures { Walks ref_words (type_of said) silent words.now at out.old s out.new result }
{
    if said {
        return walk_ref(words, at, out, s);
    }
    let &[h, x, ..] = words.get(at..)? else {
        return None;
    };
    RefType::from_words(h, x)?;
    Some((at + 2, s))
}

fn walk_exprs(words: &[u32], at: usize, text: &[u8], out: &mut [u8], s: Done) -> Walk
    ensures { Writing (listed expression) text.now words.now at out.old s out.new result }
{
    words::walk_list(words, at, out, s, move |p, out, t| {
        walk_expr(words, p, text, out, t)
    })
}

// The reference type, and the list of expressions.
fn walk_expressions(
    said: bool,
    words: &[u32],
    at: usize,
    text: &[u8],
    out: &mut [u8],
    s: Done,
) -> Walk
    ensures { Walks (elements_words_of true) (expressions_of said text.now) (expressions_low text.now) words.now at out.old s out.new result }
{
    let (p, t) = walk_type(said, words, at, out, s)?;
    walk_exprs(words, p, text, out, t)
}

// The kind, and functions or expressions.
fn walk_elements(said: bool, words: &[u32], at: usize, text: &[u8], out: &mut [u8], s: Done) -> Walk
    ensures { Walks elements_words (elements_of said text.now) (elements_low text.now) words.now at out.old s out.new result }
{
    match *words.get(at)? {
        0 => walk_functions(said, words, at + 1, out, s),
        1 => walk_expressions(said, words, at + 1, text, out, s),
        _ => None,
    }
}

// Reads the words behind the 9 and appends the item. The flag depends on the kind and the type, which stand behind the offset.
pub fn walk_words(words: &[u32], at: usize, text: &[u8], out: &mut [u8], s: Done) -> Walk
    ensures { Writing element_section text.now words.now at out.old s out.new result }
{
    let m = find_mode(words, at)?;
    let &[_, _, _, _, _, kind, head, _, ..] = words.get(at..)? else {
        return None;
    };
    let expressions = kind == 1;
    let other = is_other(m, expressions, head);
    let t = append_flag(other, m, expressions, out, s);
    let (p, u) = walk_place(m, words, at + 2, text, out, t)?;
    walk_elements(is_said(other, m), words, p, text, out, u)
}
