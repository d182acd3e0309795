// Reading subtypes: what begins at a place of some bytes, and its words.
ghost use Rattle.format.specs.Count.{silent};
ghost use Rattle.format.specs.Walk.{Walks};
ghost use Rattle.leb128.proofs.Formats.{u32};
ghost use Rattle.subtypes.specs.SubType.{described_words, described_bytes, sub_words, sub_bytes};

use composites::read_inner;
use format::{Done, Walk};
use prefixes::{read_option, read_shared, read_supers};

fn read_described(b: &[u8], at: usize, out: &mut [u32], s: Done) -> Walk
    ensures { Walks described_bytes described_words.print silent b.now at out.old s out.new result }
{
    let (p, t) = read_option(0x4C, b, at, out, s)?;
    let (q, u) = read_option(0x4D, b, p, out, t)?;
    read_inner(b, q, out, u)
}

pub fn read_sub(b: &[u8], at: usize, out: &mut [u32], s: Done) -> Walk
    ensures { Walks sub_bytes sub_words.print silent b.now at out.old s out.new result }
{
    let (p, t) = read_supers(b, at, out, s)?;
    let (q, u) = read_shared(b, p, out, t)?;
    read_described(b, q, out, u)
}
