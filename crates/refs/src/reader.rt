// Reading references: what begins at a place of some bytes, and its words.
ghost use Rattle.std.specs.Prelude.{◌≡◌, drop};
ghost use Rattle.format.specs.Count.{Appends, silent};
ghost use Rattle.format.specs.Parsed.{map};
ghost use Rattle.format.specs.Walk.{Walks};
ghost use Rattle.types.specs.Words.{ref_to, ref_words};
ghost use Rattle.types.specs.Bytes.{abs_of, abs_bytes, idx_from, idx_bytes, heap_bytes, ref_bytes};
ghost use Rattle.types.specs.Answers.{heap_at, ref_at, ref_placed};

use format::{Done, Walk, append_all};
use types::{AbstractHeapType, HeapType, RefType};

// An abstract heap type: 65 says that it is shared.
fn find_abstract(b: &[u8], at: usize) -> Option<(HeapType, usize)>
    ensures { result ≡ heap_at b.now (map abs_of (abs_bytes.parse (drop at b.now))) }
{
    let x = *b.get(at)?;
    if x == 0x65 {
        let ty = AbstractHeapType::from_byte(*b.get(at + 1)?)?;
        return Some((HeapType::Abstract { shared: true, ty }, at + 2));
    }
    let ty = AbstractHeapType::from_byte(x)?;
    Some((HeapType::Abstract { shared: false, ty }, at + 1))
}

// An index: 62 says that it is exact.
fn find_index(b: &[u8], at: usize) -> Option<(HeapType, usize)>
    ensures { result ≡ heap_at b.now (map idx_from (idx_bytes.parse (drop at b.now))) }
{
    if *b.get(at)? == 0x62 {
        let Some((v, p)) = numbers::decode_u32(b, at + 1) else {
            return None;
        };
        return Some((HeapType::Exact(v), p));
    }
    let Some((v, p)) = numbers::decode_index(b, at) else {
        return None;
    };
    Some((HeapType::Concrete(v), p))
}

// No concrete index begins with 40 to 7F.
fn find_heap(b: &[u8], at: usize) -> Option<(HeapType, usize)>
    ensures { result ≡ heap_at b.now (heap_bytes.parse (drop at b.now)) }
{
    let x = *b.get(at)?;
    if x == 0x62 {
        return find_index(b, at);
    }
    if x >> 6 == 1 {
        return find_abstract(b, at);
    }
    find_index(b, at)
}

// What is found as a reference to it.
fn placed(nullable: bool, found: Option<(HeapType, usize)>) -> Option<(RefType, usize)>
    ensures { result ≡ ref_placed nullable found }
{
    let (heap_type, p) = found?;
    Some((
        RefType {
            nullable,
            heap_type,
        },
        p,
    ))
}

// 64 and a heap type; 63 and an index; an abstract heap type.
fn find_ref(b: &[u8], at: usize) -> Option<(RefType, usize)>
    ensures { result ≡ ref_at b.now (ref_bytes.parse (drop at b.now)) }
{
    match *b.get(at)? {
        0x64 => placed(false, find_heap(b, at + 1)),
        0x63 => placed(true, find_index(b, at + 1)),
        _ => placed(true, find_abstract(b, at)),
    }
}

// Word h of a record: the kind, bit 4 nullable, bit 5 shared.
pub fn head(r: RefType) -> u32
    ensures { result ≡ (ref_to r).0 }
{
    let heap = r.heap_type;
    heap.kind() + 16 * u32::from(r.nullable) + 32 * u32::from(heap.is_shared())
}

// Words h and x.
pub fn append_ref_words(r: RefType, out: &mut [u32], s: Done) -> Done
    ensures { Appends (ref_words.print r) out.old s out.new result }
{
    let heap = r.heap_type;
    append_all(&[head(r), heap.index()], out, s)
}

// Reads the reference at a place and appends its two words.
pub fn read_ref(b: &[u8], at: usize, out: &mut [u32], s: Done) -> Walk
    ensures { Walks ref_bytes ref_words.print silent b.now at out.old s out.new result }
{
    let (r, p) = find_ref(b, at)?;
    Some((p, append_ref_words(r, out, s)))
}
