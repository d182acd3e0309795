// Reading what may stand before a composite type: what begins at a place of some bytes, and its words.
ghost use Rattle.std.specs.Prelude.{◌∷◌};
ghost use Rattle.format.specs.Alternatives.{opt};
ghost use Rattle.format.specs.Basic.{flag};
ghost use Rattle.format.specs.Leads.{LeadWalks, mark, option};
ghost use Rattle.format.specs.Count.{silent};
ghost use Rattle.format.specs.Walk.{Walks};
ghost use Rattle.leb128.proofs.Formats.{u32, index};
ghost use Rattle.lists.specs.Member.{list_words};
ghost use Rattle.lists.specs.declared.Member.TheVariants.{Index};
ghost use Rattle.words.specs.Words.{word};
ghost use Rattle.prefixes.specs.Prefix.{supers_words, supers_lead, some_supers};

use format::{Done, Walk, append};
use lists::{Member, read_list};
use words::read_index;

// k and an index, or neither.
pub fn read_option(k: u8, b: &[u8], at: usize, out: &mut [u32], s: Done) -> Walk
    ensures { LeadWalks (option k u32) (opt word).print b.now at out.old s out.new result }
{
    if *b.get(at)? == k {
        let t = append(1, out, s);
        return read_index(b, at + 1, out, t);
    }
    let t = append(0, out, s);
    Some((at, append(0, out, t)))
}

pub fn read_shared(b: &[u8], at: usize, out: &mut [u32], s: Done) -> Walk
    ensures { LeadWalks (mark 0x65) flag.print b.now at out.old s out.new result }
{
    if *b.get(at)? == 0x65 {
        return Some((at + 1, append(1, out, s)));
    }
    Some((at, append(0, out, s)))
}

// Supertypes of a final type: an empty list would have no prefix.
fn read_some(b: &[u8], at: usize, out: &mut [u32], s: Done) -> Walk
    ensures { Walks some_supers (λ xs. 1 ∷ (list_words Index).print xs) silent b.now at out.old s out.new result }
{
    if *b.get(at)? == 0 {
        return None;
    }
    let t = append(1, out, s);
    read_list(Member::Index, b, at, out, t)
}

pub fn read_supers(b: &[u8], at: usize, out: &mut [u32], s: Done) -> Walk
    ensures { LeadWalks supers_lead supers_words.print b.now at out.old s out.new result }
{
    match *b.get(at)? {
        0x50 => {
            let t = append(0, out, s);
            read_list(Member::Index, b, at + 1, out, t)
        }
        0x4F => read_some(b, at + 1, out, s),
        _ => {
            let t = append(1, out, s);
            Some((at, append(0, out, t)))
        }
    }
}
