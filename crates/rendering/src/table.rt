// A table of messages, one after the other in key order.
ghost use Rattle.std.specs.Prelude.{◌≡◌, not};
ghost use Rattle.std.specs.List.{find};
ghost use Rattle.rendering.specs.Rendered.{in_table, message_at};
ghost use Rattle.rendering.specs.View.{bytes_of};

use fields::piece_at;
use kinds::EntryKind;
use std::marker::PhantomData;

#[derive_where(Clone, Copy)]
pub(crate) struct Table<'a, K> {
    bytes: &'a [u8],
    kind: PhantomData<K>,
}

impl<'a, K: EntryKind> Table<'a, K> {
    pub(crate) fn new(bytes: &'a [u8]) -> Table<'a, K>
        ensures { bytes_of result ≡ bytes.now }
    {
        Table {
            bytes,
            kind: PhantomData,
        }
    }

    // The table has the message of a rank.
    fn has(&self, rank: u16) -> bool
        ensures { result ≡ in_table K.kind (bytes_of self.now) rank }
    {
        let width = K::message_width();
        usize::from(rank)
            .saturating_mul(width)
            .saturating_add(width)
            <= self.bytes.len()
    }

    // The first of the ranks that have no message.
    pub(crate) fn first_missing(&self, ranks: &[u16]) -> Option<u16>
        ensures { result ≡ find (λ rank. not (in_table K.kind (bytes_of self.now) rank)) ranks.now }
    {
        ranks.iter().copied().find(|rank| !self.has(*rank))
    }

    pub(crate) fn message(&self, rank: u16) -> &'a [u8]
        ensures { result.now ≡ message_at K.kind (bytes_of self.now) rank }
    {
        piece_at(self.bytes, 0, K::message_width(), usize::from(rank))
    }
}
