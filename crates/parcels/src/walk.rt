// The items of a parcel in order, each with its number from 1.
ghost use Rattle.std.specs.Prelude.{◌≡◌, ◌-◌};
ghost use Rattle.parcels.specs.Walk.{Walks};
ghost use Rattle.std.specs.Iterator.{at_most};

use crate::item::{Item, open_item};

// `count` items in all, of which `passed` were given; `rest` begins with the next. They are counted here, since an item comes with its
// number, and a range that could count them is not `Copy`.
#[derive(Clone, Copy, Debug)]
pub struct Items<'a> {
    pub(crate) rest: &'a [u8],
    pub(crate) width: usize,
    pub(crate) count: u16,
    pub(crate) passed: u16,
}

impl<'a> Iterator for Items<'a> {
    type Item = (u16, Item<'a>);

    ghost next_gives = { Walks };

    ghost remaining = { λ s. at_most (s.count - s.passed) };

    fn next(&mut self) -> Option<(u16, Item<'a>)> {
        if self.passed >= self.count {
            return None;
        }
        let (item, after) = open_item(self.rest, self.width)?;
        self.rest = after;
        self.passed += 1;
        Some((self.passed, item))
    }
}
