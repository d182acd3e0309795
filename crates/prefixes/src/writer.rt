// Writing what may stand before a composite type: its words at a place, and its bytes.
ghost use Rattle.format.specs.Alternatives.{opt};
ghost use Rattle.format.specs.Basic.{flag};
ghost use Rattle.format.specs.Leads.{mark, option};
ghost use Rattle.format.specs.Count.{silent};
ghost use Rattle.format.specs.Walk.{Walks};
ghost use Rattle.leb128.proofs.Formats.{u32};
ghost use Rattle.words.specs.Words.{word};
ghost use Rattle.prefixes.specs.Prefix.{supers_words, supers_lead};

use format::{Done, Walk, append};
use lists::{Member, walk_list};
use numbers::append_u32;

// k and an index, where the flag says that there is one.
pub fn walk_option(k: u8, words: &[u32], at: usize, out: &mut [u8], s: Done) -> Walk
    ensures { Walks (opt word) (option k u32).print silent words.now at out.old s out.new result }
{
    match words.get(at..)? {
        &[1, x, ..] => {
            let t = append(k, out, s);
            Some((at + 2, append_u32(x, out, t)))
        }
        [0, 0, ..] => Some((at + 2, s)),
        _ => None,
    }
}

pub fn walk_shared(words: &[u32], at: usize, out: &mut [u8], s: Done) -> Walk
    ensures { Walks flag (mark 0x65).print silent words.now at out.old s out.new result }
{
    match *words.get(at)? {
        0 => Some((at + 1, s)),
        1 => Some((at + 1, append(0x65, out, s))),
        _ => None,
    }
}

// Final without supertypes has no prefix.
pub fn walk_supers(words: &[u32], at: usize, out: &mut [u8], s: Done) -> Walk
    ensures { Walks supers_words supers_lead.print silent words.now at out.old s out.new result }
{
    match words.get(at..)? {
        [0, _, ..] => {
            let t = append(0x50, out, s);
            walk_list(Member::Index, words, at + 1, out, t)
        }
        [1, 0, ..] => Some((at + 2, s)),
        [1, _, ..] => {
            let t = append(0x4F, out, s);
            walk_list(Member::Index, words, at + 1, out, t)
        }
        _ => None,
    }
}
