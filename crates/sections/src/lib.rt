// The sections of a module: their lengths first, and then their bytes, where there is room for all.
#![tactic(auto)]

mod each;
mod once;
mod section;

ghost use Rattle.std.specs.Prelude.{◌≡◌, Ok, Some, true, List, ℕ, ◌+◌, ◌*◌, ◌≤◌, ◌<◌, length};
ghost use Rattle.format.specs.Lists.{prints};
ghost use Rattle.format.specs.Runs.{run};
ghost use Rattle.format.specs.Write.{Writes};
ghost use Rattle.frames.specs.Frames.{frame, frames_of};
ghost use Rattle.frames.specs.Builder.{store_most};
ghost use Rattle.frames.specs.Tally.{tally_of, tally_at};
ghost use Rattle.sections.specs.Section.{section_of};
ghost use Rattle.sections.specs.Order.{order_most, order_ids, all_among};

use frames::Tallies;
use once::is_once;
use section::{count_of, section_len};

// The numbers that finishing is given beside the order list.
#[derive(Clone, Copy, Debug, PartialEq, Eq)]
pub struct Given {
    pub count: u32,
}

// What the sections of a module are made of: a store's frames and what a walk found of them, the order list, and the numbers given with it.
#[derive(Clone, Copy, Debug)]
struct Sections<'a> {
    pub frames: &'a [u8],
    pub order: &'a [u8],
    pub tallies: Tallies,
    pub given: Given,
    ghost listed: { all_among order_ids order.now ≡ true },
    ghost tallied: { Some tallies ≡ tally_of (run frame frames.now) },
    ghost frames_within: { length frames.now ≤ store_most },
}

// How many bytes the sections of an order list have.
pub fn sections_len(order: &[u8], tallies: Tallies, given: Given) -> usize
    requires listed { all_among order_ids order.now ≡ true }
    requires few_ids { length order.now ≤ order_most }
    requires totals_within { (i : ℕ) → i < 16 → (tally_at tallies i).total ≤ store_most }
    ensures value { (s : List ℕ) → Some tallies ≡ tally_of (run frame s) → result ≡ length (prints (section_of given (frames_of s)) order.now) }
    ensures bound { result ≤ order_most * (store_most + 21) }
{
    let mut n = 0;
    for &id in order {
        let items = tallies[id as usize];
        n += section_len(count_of(id, items.count, given), items.total);
    }
    n
}

// One walk over the frames serves all sections, where no id is listed twice; for one section alone `put_each` is the quicker.
pub fn put_sections(
    frames: &[u8],
    order: &[u8],
    tallies: Tallies,
    given: Given,
    out: &mut [u8],
) -> usize
    requires listed { all_among order_ids order.now ≡ true }
    requires tallied { Some tallies ≡ tally_of (run frame frames.now) }
    requires frames_within { length frames.now ≤ store_most }
    requires room { length (prints (section_of given (frames_of frames.now)) order.now) ≤ length out.old }
    ensures { Writes (prints (section_of given (frames_of frames.now)) order.now) out.old out.new (Ok result) }
{
    let sections = Sections {
        frames,
        order,
        tallies,
        given,
    };
    if 1 < order.len() && is_once(order) {
        return sections.put_once(out);
    }
    sections.put_each(out)
}
