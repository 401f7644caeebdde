// Why a call on a chapter is refused.
ghost use Rattle.std.specs.Prelude.{◌≡◌};
ghost use Rattle.chapter.specs.Coded.{coded};
ghost use Rattle.chapter.specs.declared.fault.ChapterFault.TheVariants.{Store as Carried};

use image::Setting;
use stores::StoreFault;

// `coded` has the number and the place of each.
#[derive(Clone, Copy, PartialEq, Eq, Debug)]
pub enum ChapterFault {
    // The store below refused a block or a buffer.
    Store(StoreFault),
    // The new tree needs more blocks than the capacity, which is given.
    TreeTooLarge(usize),
    // Block 0 is not the head of a chapter of this kind.
    WrongHead,
    // The block is malformed, or is not the one that the image has.
    WrongBlock(usize),
    // A message, key or buffer has this length, which is not the one wanted.
    WrongLength(usize),
    // The first invalid field of a message begins at this offset.
    InvalidField(usize),
    // The key is new, and the chapter holds as many entries as it can: their number.
    Full(usize),
    // The work table is shorter than this.
    WorkTooShort(usize),
    // A setting is out of its limits.
    OutOfLimits(Setting),
    // The store has fewer blocks than this.
    StoreTooSmall(usize),
    // A page of no lines.
    NoLines,
}

// The two columns of the table `coded`: a conversion into a pair of numbers would leave them without names.
impl ChapterFault {
    pub fn number(&self) -> u8
        ensures { result ≡ (coded self.now).0 }
    {
        match self {
            ChapterFault::Store(fault) => fault.number(),
            ChapterFault::TreeTooLarge(_) => 20,
            ChapterFault::WrongHead => 21,
            ChapterFault::WrongBlock(_) => 22,
            ChapterFault::WrongLength(_) => 23,
            ChapterFault::InvalidField(_) => 24,
            ChapterFault::Full(_) => 25,
            ChapterFault::WorkTooShort(_) => 26,
            ChapterFault::OutOfLimits(_) => 27,
            ChapterFault::StoreTooSmall(_) => 28,
            ChapterFault::NoLines => 29,
        }
    }

    pub fn place(&self) -> usize
        ensures { result ≡ (coded self.now).1 }
    {
        match self {
            ChapterFault::Store(fault) => fault.place(),
            ChapterFault::TreeTooLarge(capacity) => *capacity,
            ChapterFault::WrongHead => 0,
            ChapterFault::WrongBlock(block) => *block,
            ChapterFault::WrongLength(length) => *length,
            ChapterFault::InvalidField(at) => *at,
            ChapterFault::Full(entries) => *entries,
            ChapterFault::WorkTooShort(needed) => *needed,
            ChapterFault::OutOfLimits(Setting::Alpha) => 1,
            ChapterFault::OutOfLimits(Setting::Rho) => 2,
            ChapterFault::OutOfLimits(Setting::Capacity) => 3,
            ChapterFault::StoreTooSmall(needed) => *needed,
            ChapterFault::NoLines => 0,
        }
    }
}

// Written by hand for `from_gives`: a derive says nothing of which fault comes out.
impl From<StoreFault> for ChapterFault {
    ghost from_gives = { λ f r. r ≡ Carried f };

    fn from(fault: StoreFault) -> ChapterFault {
        Self::Store(fault)
    }
}
