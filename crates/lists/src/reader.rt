// Reading lists: what begins at a place of some bytes, and its words.
ghost use Rattle.format.specs.Count.{silent};
ghost use Rattle.format.specs.Walk.{Walks};
ghost use Rattle.lists.specs.Member.{list_words, list_bytes};

use crate::Member;
use format::{Done, Walk};
use vals::{read_field, read_val};
use words::read_index;

// The kind is asked once for all members: where one walk is any of three, its answer is copied once more, and the next member waits for it.
pub fn read_list(m: Member, b: &[u8], at: usize, out: &mut [u32], s: Done) -> Walk
    ensures { Walks (list_bytes m) (list_words m).print silent b.now at out.old s out.new result }
{
    match m {
        Member::Index => {
            words::read_list(b, at, out, s, move |p, out, t| read_index(b, p, out, t))
        }
        Member::Val => words::read_list(b, at, out, s, move |p, out, t| read_val(b, p, out, t)),
        Member::Field => {
            words::read_list(b, at, out, s, move |p, out, t| read_field(b, p, out, t))
        }
    }
}
