// Writing references: their words at a place, and their bytes.
ghost use Rattle.format.specs.Count.{Appends, silent};
ghost use Rattle.format.specs.Walk.{Walks};
ghost use Rattle.types.specs.Words.{ref_words};
ghost use Rattle.types.specs.Bytes.{heap_bytes, ref_bytes};

use format::{Done, Walk, append};
use numbers::{append_index, append_u32};
use types::{HeapType, RefType};

fn append_heap(t: HeapType, out: &mut [u8], s: Done) -> Done
    ensures { Appends (heap_bytes.print t) out.old s out.new result }
{
    match t {
        HeapType::Abstract { shared, ty } => {
            if shared {
                let u = append(0x65, out, s);
                return append(ty.byte(), out, u);
            }
            append(ty.byte(), out, s)
        }
        HeapType::Concrete(x) => append_index(x, out, s),
        HeapType::Exact(x) => {
            let u = append(0x62, out, s);
            append_u32(x, out, u)
        }
    }
}

// Only an abstract heap type stands alone, and only where it is nullable.
pub fn append_ref(r: RefType, out: &mut [u8], s: Done) -> Done
    ensures { Appends (ref_bytes.print r) out.old s out.new result }
{
    let heap = r.heap_type;
    if r.nullable {
        if heap.is_abstract() {
            return append_heap(heap, out, s);
        }
        let t = append(0x63, out, s);
        return append_heap(heap, out, t);
    }
    let t = append(0x64, out, s);
    append_heap(heap, out, t)
}

// Reads a reference's two words and appends its bytes.
pub fn walk_ref(words: &[u32], at: usize, out: &mut [u8], s: Done) -> Walk
    ensures { Walks ref_words ref_bytes.print silent words.now at out.old s out.new result }
{
    if words.len() <= at {
        return None;
    }
    if words.len() - at < 2 {
        return None;
    }
    let h = words[at];
    let x = words[at + 1];
    let Some(r) = RefType::from_words(h, x) else {
        return None;
    };
    Some((at + 2, append_ref(r, out, s)))
}
