// Writing lists: their words at a place, and their bytes.
ghost use Rattle.format.specs.Count.{silent};
ghost use Rattle.format.specs.Walk.{Walks};
ghost use Rattle.lists.specs.Member.{list_words, list_bytes};

use crate::Member;
use format::{Done, Walk};
use vals::{walk_field, walk_val};
use words::walk_index;

// The kind is asked once for all members, as in reading.
pub fn walk_list(m: Member, words: &[u32], at: usize, out: &mut [u8], s: Done) -> Walk
    ensures { Walks (list_words m) (list_bytes m).print silent words.now at out.old s out.new result }
{
    match m {
        Member::Index => {
            words::walk_list(
                words,
                at,
                out,
                s,
                move |p, out, t| walk_index(words, p, out, t),
            )
        }
        Member::Val => {
            words::walk_list(
                words,
                at,
                out,
                s,
                move |p, out, t| walk_val(words, p, out, t),
            )
        }
        Member::Field => {
            words::walk_list(
                words,
                at,
                out,
                s,
                move |p, out, t| walk_field(words, p, out, t),
            )
        }
    }
}
