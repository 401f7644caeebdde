// How many messages and notes a parcel has.
ghost use Rattle.std.specs.Prelude.{◌≡◌, Some};
ghost use Rattle.parcels.specs.Meaning.{numbers_shown};
ghost use Rattle.parcels.specs.Walk.{contents, messages_in, notes_in};

use crate::item::Item;
use crate::parcel::Parcel;
use std::fmt;

#[derive(Clone, Copy, PartialEq, Eq, Debug)]
pub struct Counts {
    pub messages: u16,
    pub notes: u16,
}

impl Parcel<'_> {
    // Both in one walk over the items, where two chains would be two.
    pub fn counts(&self) -> Counts
        ensures messages { result.messages ≡ messages_in (contents self.now).items }
        ensures notes { result.notes ≡ notes_in (contents self.now).items }
    {
        let mut messages = 0;
        let mut notes = 0;
        for (_, item) in self.items() {
            match item {
                Item::Message(_) => messages += 1,
                Item::Note(_) => notes += 1,
            }
        }
        Counts { messages, notes }
    }
}

// The messages, then the notes.
impl fmt::Display for Counts {
    ghost output = { λ counts. Some (numbers_shown counts.messages counts.notes) };

    fn fmt<W: fmt::Write>(&self, f: &mut fmt::Formatter<W>) -> fmt::Result {
        let messages = self.messages;
        let notes = self.notes;
        write!(f, "{messages} {notes}")
    }
}
