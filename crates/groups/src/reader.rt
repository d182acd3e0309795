// Reading types and groups of them: what begins at a place of some bytes, and its words.
ghost use Rattle.parts.specs.Listed.{listed};
ghost use Rattle.parts.specs.Reading.{Reading};
ghost use Rattle.groups.specs.RecGroup.{sub_type, type_section};

use format::{Done, Walk, append};
use subtypes::read_sub;
use words::read_list;

fn read_many(b: &[u8], at: usize, out: &mut [u32], s: Done) -> Walk
    ensures { Reading (listed sub_type) b.now at out.old s out.new result }
{
    read_list(b, at, out, s, move |p, out, t| read_sub(b, p, out, t))
}

// Reads an item of the type section and appends the words of its record behind the 1.
pub fn walk_bytes(b: &[u8], at: usize, out: &mut [u32], s: Done) -> Walk
    ensures { Reading type_section b.now at out.old s out.new result }
{
    if *b.get(at)? == 0x4E {
        let t = append(1, out, s);
        return read_many(b, at + 1, out, t);
    }
    let t = append(0, out, s);
    let u = append(1, out, t);
    read_sub(b, at, out, u)
}
