// A tree block, read from any bytes.
ghost use Rattle.std.specs.Prelude.{◌≡◌, ◌*◌, ◌==◌, ◌^◌, ◌≤◌, None, Some, cond, length, take, sum_by, nat_lt};
ghost use Rattle.std.specs.Option.{option_map};
ghost use Rattle.std.specs.Ordering.{is_lt};
ghost use Rattle.image.specs.Messages.{key_of};
ghost use Rattle.image.specs.Parts.{messages_to_come, sections_to_come};
ghost use Rattle.image.specs.Reading.{active_at, entry_count, every, keys_rise, mask as mask_in, message_valid, of_kind, section_at, section_count, section_sound, sections_of, slot as slot_in, slots, well_formed};
ghost use Rattle.image.specs.Walk.{in_block, measure_before, measure_below, next_block, section_for, separator_below};
ghost use Rattle.image.specs.View.{alpha_of, bytes_of};

use crate::parts::{Sections, Slots};
use crate::section::SectionFields;
use fields::{LittleEndian, byte_at, piece_at, slice_at};
use kinds::EntryKind;
use std::cmp::Ordering;
use std::marker::PhantomData;

// The bytes as a block of a chapter of the kind, which has so many slots in a block.
#[derive_where(Clone, Copy)]
pub struct TreeBlock<'a, K> {
    bytes: &'a [u8],
    alpha: u8,
    kind: PhantomData<K>,
}

impl<'a, K: EntryKind> TreeBlock<'a, K> {
    pub fn new(bytes: &'a [u8], alpha: u8) -> TreeBlock<'a, K>
        ensures bytes { bytes_of result ≡ bytes.now }
        ensures alpha { alpha_of result ≡ alpha }
    {
        TreeBlock {
            bytes,
            alpha,
            kind: PhantomData,
        }
    }

    pub fn entries(&self) -> usize
        ensures count { result ≡ entry_count (bytes_of self.now) }
        ensures few { result ≤ 255 }
    {
        usize::from(byte_at(self.bytes, 0))
    }

    pub fn mask(&self) -> u16
        ensures { result ≡ mask_in (bytes_of self.now) }
    {
        u16::read_at(self.bytes, 2)
    }

    // The number of sections: the mask's ones are the active separators, one fewer.
    pub fn section_count(&self) -> usize
        ensures count { result ≡ section_count (bytes_of self.now) }
        ensures few { result ≤ 17 }
    {
        self.mask().count_ones() as usize + 1
    }

    // Whether slot i has an active separator.
    pub fn is_active(&self, i: usize) -> bool
        ensures { result ≡ active_at (bytes_of self.now) i }
    {
        let mask = self.mask();
        i < 16 && (mask >> i) & 1 == 1
    }

    // The message in slot i, where it lies in the block.
    pub fn slot(&self, i: usize) -> &'a [u8]
        ensures { result.now ≡ slot_in K.kind (bytes_of self.now) i }
    {
        piece_at(self.bytes, 8, K::message_width(), i)
    }

    // What the record of section i says.
    pub fn section(&self, i: usize) -> SectionFields
        ensures { result ≡ section_at K.kind (alpha_of self.now) (bytes_of self.now) i }
    {
        let after_slots = 8 + usize::from(self.alpha) * K::message_width();
        let record = piece_at(self.bytes, after_slots, 8, i);
        SectionFields {
            number: u16::read_at(record, 0),
            weight: u16::read_at(record, 2),
            measure: u32::read_at(record, 4),
        }
    }

    // The messages of the entries, in the order of their slots.
    #[tactic(auto, using(crate::proofs::Stepping::count_of))]
    pub fn slots(&self) -> Slots<'a, K>
        ensures messages { messages_to_come K.kind result ≡ slots K.kind (bytes_of self.now) }
        ensures few { length (slots K.kind (bytes_of self.now)) ≤ 255 }
    {
        Slots {
            block: *self,
            places: 0..self.entries(),
        }
    }

    // What the records of the sections say, in order.
    #[tactic(auto, using(crate::proofs::Stepping::count_of))]
    pub fn sections(&self) -> Sections<'a, K>
        ensures sections { sections_to_come K.kind result ≡ sections_of K.kind (alpha_of self.now) (bytes_of self.now) }
        ensures few { length (sections_of K.kind (alpha_of self.now) (bytes_of self.now)) ≤ 17 }
    {
        Sections {
            block: *self,
            places: 0..self.section_count(),
        }
    }

    // The message of the key, if the block has it.
    pub fn find(&self, key: &[u8]) -> Option<&'a [u8]>
        ensures { option_map (λ x. x.now) result ≡ in_block K.kind key.now (bytes_of self.now) }
    {
        for message in self.slots() {
            match K::compare_keys(key_of::<K>(message), key) {
                Ordering::Less => {}
                Ordering::Equal => return Some(message),
                Ordering::Greater => return None,
            }
        }
        None
    }

    // Slot i has an active separator that is below the key.
    fn separates(&self, i: usize, key: &[u8]) -> bool
        ensures { result ≡ separator_below K.kind key.now (bytes_of self.now) i (slot_in K.kind (bytes_of self.now) i) }
    {
        self.is_active(i) && is_below::<K>(self.slot(i), key)
    }

    // The section that the key belongs to, from 0: so many active separators are below it.
    pub fn section_for(&self, key: &[u8]) -> usize
        ensures { result ≡ section_for K.kind key.now (bytes_of self.now) }
    {
        (0..self.entries())
            .filter(|i| self.separates(*i, key))
            .count()
    }

    // The number of the block of that section, if it has one.
    pub fn next_block(&self, key: &[u8]) -> Option<u16>
        ensures { let number = next_block K.kind key.now (alpha_of self.now) (bytes_of self.now) in
            result ≡ cond (number == 0) None (Some number) }
    {
        self.section(self.section_for(key)).block()
    }

    // The measure of the entries below the key.
    fn entries_below(&self, key: &[u8]) -> u32
        ensures { result ≡ measure_below K.kind key.now (slots K.kind (bytes_of self.now)) }
    {
        self.slots()
            .filter(|message| is_below::<K>(message, key))
            .map(|message| u32::from(K::measure(message)))
            .sum()
    }

    // The measure of the first sections, so many of them or all.
    fn sections_before(&self, end: usize) -> u64
        ensures value { result ≡ sum_by (λ s. s.measure) (take end (sections_of K.kind (alpha_of self.now) (bytes_of self.now))) }
        ensures few { result ≤ 17 * 4294967295 }
    {
        self.sections()
            .take(end)
            .map(|section| u64::from(section.measure))
            .sum()
    }

    // What the block has before the key: its entries below it, and the sections left of the one that the key belongs to.
    pub fn measure_before(&self, key: &[u8]) -> u64
        ensures { result ≡ measure_before K.kind key.now (alpha_of self.now) (bytes_of self.now) }
    {
        u64::from(self.entries_below(key)) + self.sections_before(self.section_for(key))
    }

    fn messages_valid(&self) -> bool
        ensures { result ≡ every (message_valid K.kind) (slots K.kind (bytes_of self.now)) }
    {
        self.slots().all(|message| K::invalid_at(message).is_none())
    }

    fn sections_sound(&self, tree_blocks: usize, number: usize) -> bool
        ensures { result ≡ every (section_sound tree_blocks number) (sections_of K.kind (alpha_of self.now) (bytes_of self.now)) }
    {
        self.sections()
            .all(|section| section.is_sound(tree_blocks, number))
    }

    fn keys_rise(&self) -> bool
        ensures { result ≡ keys_rise K.kind (slots K.kind (bytes_of self.now)) }
    {
        self.slots()
            .is_sorted_by(|last, next| is_below::<K>(last, key_of::<K>(next)))
    }

    // Block `number` of a chapter of so many tree blocks may stand in its tree: two numbers that only this test asks for.
    pub fn is_well_formed(&self, tree_blocks: usize, number: usize) -> bool
        ensures { result ≡ well_formed K.kind (alpha_of self.now) tree_blocks number (bytes_of self.now) }
    {
        self.is_of_kind()
            && self.messages_valid()
            && self.keys_rise()
            && self.mask_fits()
            && self.sections_sound(tree_blocks, number)
    }

    // From 1 to alpha entries of the kind.
    fn is_of_kind(&self) -> bool
        ensures { result ≡ of_kind K.kind (alpha_of self.now) (bytes_of self.now) }
    {
        (1..=usize::from(self.alpha)).contains(&self.entries())
            && byte_at(self.bytes, 1) == K::kind_number()
    }

    // No mask bit stands past the entries.
    fn mask_fits(&self) -> bool
        ensures { result ≡ nat_lt (mask_in (bytes_of self.now)) (2 ^ entry_count (bytes_of self.now)) }
    {
        let entries = self.entries();
        let mask = u32::from(self.mask());
        entries >= 16 || mask < 1 << entries
    }
}

// The key is the front of a message.
pub fn key_of<K: EntryKind>(message: &[u8]) -> &[u8]
    ensures { result.now ≡ key_of K.kind message.now }
{
    slice_at(message, 0, K::key_width())
}

// The message's key is below the key.
fn is_below<K: EntryKind>(message: &[u8], key: &[u8]) -> bool
    ensures { result ≡ is_lt (K.kind.key_order (key_of K.kind message.now) key.now) }
{
    K::compare_keys(key_of::<K>(message), key).is_lt()
}
