// The sections of any order list, with a walk over the frames for each.
ghost use Rattle.std.specs.Prelude.{Ok, ◌≤◌, length};
ghost use Rattle.format.specs.Lists.{prints};
ghost use Rattle.format.specs.Write.{Writes};
ghost use Rattle.frames.specs.Frames.{frames_of};
ghost use Rattle.sections.specs.Section.{section_of};

use crate::Sections;
use crate::section::{count_of, put_section};

impl Sections<'_> {
    pub fn put_each(&self, out: &mut [u8]) -> usize
        requires { length (prints (section_of self.now.given (frames_of self.now.frames.now)) self.now.order.now) ≤ length out.old }
        ensures { Writes (prints (section_of self.now.given (frames_of self.now.frames.now)) self.now.order.now) out.old out.new (Ok result) }
    {
        let mut n = 0;
        for &id in self.order {
            let items = self.tallies[id as usize];
            let count = count_of(id, items.count, self.given);
            n += put_section(self.frames, id, count, items.total, &mut out[n..]);
        }
        n
    }
}
