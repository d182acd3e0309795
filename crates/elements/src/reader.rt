// Reading element segments: what begins at a place of some bytes, and its words.
ghost use Rattle.std.specs.Prelude.{◌≡◌, false, true, ◌≤◌, leb, length};
ghost use Rattle.texts.specs.Judge.{text_most};
ghost use Rattle.parts.specs.Text.{expression};
ghost use Rattle.parts.specs.Listed.{listed};
ghost use Rattle.parts.specs.Reading.{Reading};
ghost use Rattle.elements.specs.Members.{members};
ghost use Rattle.elements.specs.Item.{flag_of, is_typed};
ghost use Rattle.elements.specs.Section.{element_section};

use format::{Done, Walk, append};
use lists::{Member, read_list};
use modes::{Mode, append_mode, append_two, read_place};
use parts::read_expr;
use refs::{append_ref_words, read_ref};
use types::RefType;

// The mode of a flag; 4 and more list expressions.
fn flag_mode(f: u8) -> Mode
    requires { f ≤ 7 }
    ensures { flag_of result (leb 4 f) ≡ f }
{
    match f {
        0 | 4 => Mode::Active,
        1 | 5 => Mode::Passive,
        2 | 6 => Mode::ActiveTable,
        _ => Mode::Declared,
    }
}

// 00 where the kind is said, and the list of indices; h and x are 0.
fn read_functions(said: bool, b: &[u8], at: usize, out: &mut [u32], s: Done) -> Walk
    ensures { Reading (members false said) b.now at out.old s out.new result }
{
    let t = append(0, out, s);
    let u = append_two(0, 0, out, t);
    if said {
        return match *b.get(at)? {
            0x00 => read_list(Member::Index, b, at + 1, out, u),
            _ => None,
        };
    }
    read_list(Member::Index, b, at, out, u)
}

fn read_exprs(b: &[u8], at: usize, out: &mut [u32], s: Done) -> Walk
    requires { length b.now ≤ text_most }
    ensures { Reading (listed expression) b.now at out.old s out.new result }
{
    words::read_list(b, at, out, s, move |p, out, t| read_expr(b, p, out, t))
}

// The type, which is nullable unshared func where it is not said, and the list of expressions.
fn read_expressions(said: bool, b: &[u8], at: usize, out: &mut [u32], s: Done) -> Walk
    requires { length b.now ≤ text_most }
    ensures { Reading (members true said) b.now at out.old s out.new result }
{
    let t = append(1, out, s);
    if said {
        let (p, u) = read_ref(b, at, out, t)?;
        return read_exprs(b, p, out, u);
    }
    let u = append_ref_words(RefType::FUNCREF, out, t);
    read_exprs(b, at, out, u)
}

// Whether a flag of this mode says the type, as 00 for functions.
fn is_typed(m: Mode) -> bool
    ensures { result ≡ is_typed m }
{
    m != Mode::Active
}

// Reads the item at a place and appends the words behind the 9.
pub fn walk_bytes(b: &[u8], at: usize, out: &mut [u32], s: Done) -> Walk
    requires { length b.now ≤ text_most }
    ensures { Reading element_section b.now at out.old s out.new result }
{
    let f = *b.get(at)?;
    if 7 < f {
        return None;
    }
    let m = flag_mode(f);
    let t = append_mode(m, out, s);
    let (p, u) = read_place(m, b, at + 1, out, t)?;
    if f < 4 {
        return read_functions(is_typed(m), b, p, out, u);
    }
    read_expressions(is_typed(m), b, p, out, u)
}
