// What block 0 says of a chapter.
ghost use Rattle.std.specs.Prelude.{◌≡◌};
ghost use Rattle.image.specs.Reading.{head_fields, head_right, head_sound, is_chapter, read_head};
ghost use Rattle.image.specs.Refusals.{head_refusal};

use crate::settings::{Setting, Settings};
use fields::{LittleEndian, byte_at, slice_at};
use kinds::EntryKind;

#[derive(Clone, Copy, PartialEq, Eq, Debug)]
pub struct Counts {
    pub entries: usize,
    pub blocks: usize,
    pub measure: u32,
}

#[derive(Clone, Copy, PartialEq, Eq, Debug)]
pub struct Head {
    pub settings: Settings,
    pub counts: Counts,
    pub chapter: u32,
}

// What is wrong with a head. The cases stand in the order in which they are tested.
#[derive(Clone, Copy, PartialEq, Eq, Debug)]
pub enum HeadFault {
    // The first setting that is out of its limits.
    OutOfLimits(Setting),
    EntriesAboveCapacity,
    BlocksAboveEntries,
}

// The first three bytes of every head, and the number after them.
pub const MARK: [u8; 3] = *b"GAL";

pub const VERSION: u16 = 1;

fn head_fields(block: &[u8]) -> Head
    ensures { result ≡ head_fields block.now }
{
    let settings = Settings {
        alpha: usize::from(byte_at(block, 6)),
        rho: usize::from(u16::read_at(block, 7)),
        capacity: usize::from(u16::read_at(block, 9)),
    };
    let counts = Counts {
        entries: usize::from(u16::read_at(block, 11)),
        blocks: usize::from(u16::read_at(block, 13)),
        measure: u32::read_at(block, 15),
    };
    Head {
        settings,
        counts,
        chapter: u32::read_at(block, 19),
    }
}

// Mark and version are those of a chapter.
fn is_chapter(block: &[u8]) -> bool
    ensures { result ≡ is_chapter block.now }
{
    slice_at(block, 0, 3) == MARK.as_slice() && u16::read_at(block, 3) == VERSION
}

// The block is the head of a chapter of the kind.
fn is_head<K: EntryKind>(block: &[u8]) -> bool
    ensures { result ≡ head_right K.kind block.now }
{
    let head = head_fields(block);
    is_chapter(block) && byte_at(block, 5) == K::kind_number() && head.is_sound(K::message_width())
}

impl Head {
    // The first thing that is wrong with it, for messages of the width.
    pub fn fault(&self, width: usize) -> Option<HeadFault>
        ensures { result ≡ head_refusal width self.now }
    {
        if let Some(setting) = self.settings.out_of_limits(width) {
            return Some(HeadFault::OutOfLimits(setting));
        }
        if self.counts.entries > self.settings.capacity {
            return Some(HeadFault::EntriesAboveCapacity);
        }
        if self.counts.blocks > self.counts.entries {
            return Some(HeadFault::BlocksAboveEntries);
        }
        None
    }

    // Its settings are within their limits, and its counts within those.
    pub fn is_sound(&self, width: usize) -> bool
        ensures { result ≡ head_sound width self.now }
    {
        self.fault(width).is_none()
    }

    // What block 0 says, or none where it is not the head of a chapter of the kind.
    pub fn read<K: EntryKind>(block: &[u8]) -> Option<Head>
        ensures { result ≡ read_head K.kind block.now }
    {
        is_head::<K>(block).then(|| head_fields(block))
    }
}
