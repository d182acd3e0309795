// Writing subtypes: their words at a place, and their bytes.
ghost use Rattle.format.specs.Count.{silent};
ghost use Rattle.format.specs.Walk.{Walks};
ghost use Rattle.leb128.proofs.Formats.{u32};
ghost use Rattle.subtypes.specs.SubType.{described_words, described_bytes, sub_words, sub_bytes};

use composites::walk_inner;
use format::{Done, Walk};
use prefixes::{walk_option, walk_shared, walk_supers};

fn walk_described(words: &[u32], at: usize, out: &mut [u8], s: Done) -> Walk
    ensures { Walks described_words described_bytes.print silent words.now at out.old s out.new result }
{
    let (p, t) = walk_option(0x4C, words, at, out, s)?;
    let (q, u) = walk_option(0x4D, words, p, out, t)?;
    walk_inner(words, q, out, u)
}

pub fn walk_sub(words: &[u32], at: usize, out: &mut [u8], s: Done) -> Walk
    ensures { Walks sub_words sub_bytes.print silent words.now at out.old s out.new result }
{
    let (p, t) = walk_supers(words, at, out, s)?;
    let (q, u) = walk_shared(words, p, out, t)?;
    walk_described(words, q, out, u)
}
