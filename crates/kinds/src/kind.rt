// The entry kind: a type with no values that says how messages are read.
ghost use Rattle.std.specs.Prelude.{◌≡◌, ℕ};
ghost use Rattle.kinds.specs.Kind.{Kind, Lawful};

use std::cmp::Ordering;

// Every answer comes from the bytes alone, for bytes of any number, and none is a refusal.
pub trait EntryKind {
    const NUMBER: u8;

    const WIDTH: usize;

    const KEY_LENGTH: usize;

    ghost NUMBER: { ℕ };

    ghost WIDTH: { ℕ };

    ghost KEY_LENGTH: { ℕ };

    ghost kind: { Kind };

    // The offset of the first invalid field, or none where the message is valid.
    fn invalid_at(message: &[u8]) -> Option<usize>
        ensures { result ≡ kind.invalid message.now };

    fn measure(message: &[u8]) -> u16
        ensures { result ≡ kind.measured message.now };

    // Keys and ranks may compare by more than fields, so each kind says how.
    fn compare_keys(a: &[u8], b: &[u8]) -> Ordering
        ensures { result ≡ kind.key_order a.now b.now };

    // How two messages with one key rank: the greater stands.
    fn compare_ranks(a: &[u8], b: &[u8]) -> Ordering
        ensures { result ≡ kind.rank_order a.now b.now };

    ghost lawful: { Lawful kind };

    // The constants are the kind's.
    ghost constants: { (NUMBER ≡ kind.number) × (WIDTH ≡ kind.width) × (KEY_LENGTH ≡ kind.key_width) };

    // The three numbers for generic code, whose clauses speak of the kind and not of the constants.
    final fn kind_number() -> u8
        ensures { result ≡ kind.number }
    {
        Self::NUMBER
    }

    final fn message_width() -> usize
        ensures { result ≡ kind.width }
    {
        Self::WIDTH
    }

    // The key is the first so many bytes of a message.
    final fn key_width() -> usize
        ensures { result ≡ kind.key_width }
    {
        Self::KEY_LENGTH
    }
}
