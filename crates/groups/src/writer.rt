// Writing types and groups of them: their words at a place, and their items. They hold no texts, so that what is written is the same with any.
ghost use Rattle.std.specs.Prelude.{List, ℕ};
ghost use Rattle.parts.specs.Listed.{listed};
ghost use Rattle.parts.specs.Writing.{Writing};
ghost use Rattle.groups.specs.RecGroup.{sub_type, type_section};

use format::{Done, Walk, append};
use subtypes::walk_sub;
use words::walk_list;

fn walk_many(words: &[u32], at: usize, out: &mut [u8], s: Done) -> Walk
    ensures { (t : List ℕ) → Writing (listed sub_type) t words.now at out.old s out.new result }
{
    walk_list(
        words,
        at,
        out,
        s,
        move |p, out, t| walk_sub(words, p, out, t),
    )
}

// Reads the words of a type behind its 1 and appends its item: a subtype alone, or a group.
pub fn walk_words(words: &[u32], at: usize, out: &mut [u8], s: Done) -> Walk
    ensures { (t : List ℕ) → Writing type_section t words.now at out.old s out.new result }
{
    match words.get(at..)? {
        [1, _, ..] => {
            let t = append(0x4E, out, s);
            walk_many(words, at + 1, out, t)
        }
        [0, 1, ..] => walk_sub(words, at + 2, out, s),
        _ => None,
    }
}
