// The layout of messages in fields: reading them, comparing messages by them, and finding the first that is invalid.
#![tactic(auto)]

ghost use Rattle.std.specs.Prelude.{◌≡◌};
ghost use Rattle.std.specs.Ordering.{nat_cmp as compared};
ghost use Rattle.layout.specs.Layout.{by_fields, first_invalid, value as valued};

use fields::{LittleEndian, byte_at};
use std::cmp::Ordering;

// What two messages are compared by: a byte, a byte with A to Z read as a to z, or a number of four bytes, each at an
// offset.
#[derive(Clone, Copy)]
pub enum Field {
    Byte(usize),
    Folded(usize),
    Number(usize),
}

impl Field {
    pub fn value(self, message: &[u8]) -> u32
        ensures { result ≡ valued message.now self }
    {
        match self {
            Field::Byte(at) => u32::from(byte_at(message, at)),
            Field::Folded(at) => u32::from(byte_at(message, at).to_ascii_lowercase()),
            Field::Number(at) => u32::read_at(message, at),
        }
    }

    pub fn compare(self, a: &[u8], b: &[u8]) -> Ordering
        ensures { result ≡ compared (valued a.now self) (valued b.now self) }
    {
        self.value(a).cmp(&self.value(b))
    }
}

// The first of the fields that differs decides.
pub fn compare_fields(a: &[u8], b: &[u8], fields: &[Field]) -> Ordering
    ensures { result ≡ by_fields fields.now a.now b.now }
{
    fields
        .iter()
        .map(|field| field.compare(a, b))
        .find(|order| order.is_ne())
        .unwrap_or(Ordering::Equal)
}

// The first offset whose test failed. A test is a pair, an offset and whether the field there is valid, as in the rules: a row of
// a table, which a type of two fields would make no plainer.
pub fn first_invalid(tests: &[(usize, bool)]) -> Option<usize>
    ensures { result ≡ first_invalid tests.now }
{
    tests.iter().find(|(_, passed)| !passed).map(|(at, _)| *at)
}
