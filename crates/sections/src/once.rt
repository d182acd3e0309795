// All sections of an order list that has no id twice, in one walk over the frames.
ghost use Rattle.std.specs.Prelude.{◌≡◌, ◌↔◌, Ok, true, ◌≤◌, length};
ghost use Rattle.format.specs.Lists.{prints};
ghost use Rattle.format.specs.Write.{Writes};
ghost use Rattle.frames.specs.Frames.{frames_of};
ghost use Rattle.sections.specs.Section.{section_of};
ghost use Rattle.sections.specs.Order.{order_ids, all_among, Once};
ghost use Rattle.sections.specs.Laid.{plan_of, room_of, Headed};

use crate::Sections;
use crate::section::{count_of, put_head};
use frames::Frames;

// Where each section's next item goes, by its id, and 0 where the order list has no such section; and how many bytes all sections have.
#[derive(Clone, Copy, Debug)]
pub struct Heads {
    pub places: [usize; 16],
    pub n: usize,
}

// Whether an order list has no id twice.
pub fn is_once(order: &[u8]) -> bool
    requires { all_among order_ids order.now ≡ true }
    ensures { (result ≡ true) ↔ Once order.now }
{
    let mut seen = [false; 16];
    for &id in order {
        if seen[id as usize] {
            return false;
        }
        seen[id as usize] = true;
    }
    true
}

impl Sections<'_> {
    // The heads of the sections, with room for the items behind each.
    fn put_heads(&self, out: &mut [u8]) -> Heads
        requires once { Once self.now.order.now }
        requires room { room_of (plan_of self.now.tallies self.now.given) self.now.order.now ≤ length out.old }
        ensures { Headed (plan_of self.now.tallies self.now.given) self.now.order.now out.old out.new result.places result.n }
    {
        let mut places = [0; 16];
        let mut n = 0;
        for &id in self.order {
            let items = self.tallies[id as usize];
            let count = count_of(id, items.count, self.given);
            n += put_head(id, count, items.total, &mut out[n..]);
            places[id as usize] = n;
            n += items.total;
        }
        Heads { places, n }
    }

    // Each item goes behind the last of its section.
    pub fn put_once(&self, out: &mut [u8]) -> usize
        requires once { Once self.now.order.now }
        requires room { length (prints (section_of self.now.given (frames_of self.now.frames.now)) self.now.order.now) ≤ length out.old }
        ensures { Writes (prints (section_of self.now.given (frames_of self.now.frames.now)) self.now.order.now) out.old out.new (Ok result) }
    {
        let Heads { mut places, n } = self.put_heads(out);
        for (id, item) in Frames::new(self.frames) {
            let to = places[id as usize];
            if 0 < to {
                // There is room, and reading the answer takes a third longer.
                let _ = format::copy(item, &mut out[to..]);
                places[id as usize] = to + item.len();
            }
        }
        n
    }
}
