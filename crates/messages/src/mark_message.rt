// An index mark as a typed value.
ghost use Rattle.std.specs.Prelude.{◌≡◌, ◌++◌, length};
ghost use Rattle.messages.specs.IndexMark.{encoded, read as fields_of};

use crate::message::{Fields, Message};
use fields::{LittleEndian, byte_at};
use kinds::{IndexMarks, State};

// The term has 16 bytes, by the byte format, and is filled up with zeros. The emphasis stands beside the state, also for a cut, where
// it is 0: a value may hold what is not valid.
#[derive(Clone, Copy, PartialEq, Eq, Debug)]
pub struct IndexMark {
    pub term: [u8; 16],
    pub place: u32,
    pub origin: u8,
    pub sender: u8,
    pub state: State,
    pub emphasis: u8,
    pub stamp: u32,
}

impl Fields for IndexMark {
    type Kind = IndexMarks;

    ghost encoded = { encoded };

    ghost fields = { fields_of };

    fn read(message: &[u8]) -> IndexMark {
        IndexMark {
            term: message[0..16].try_into().unwrap(),
            place: u32::read_at(message, 16),
            origin: byte_at(message, 20),
            sender: byte_at(message, 21),
            state: State::try_from(byte_at(message, 22)).unwrap(),
            emphasis: byte_at(message, 23),
            stamp: u32::read_at(message, 24),
        }
    }
}

impl Message<28> for IndexMark {
    fn encode(&self) -> [u8; 28] {
        let IndexMark {
            term,
            place,
            origin,
            sender,
            state,
            emphasis,
            stamp,
        } = *self;
        let [p0, p1, p2, p3]: [u8; 4] = place.to_bytes();
        let [s0, s1, s2, s3]: [u8; 4] = stamp.to_bytes();
        joined(
            &term,
            &[
                p0,
                p1,
                p2,
                p3,
                origin,
                sender,
                u8::from(state),
                emphasis,
                s0,
                s1,
                s2,
                s3,
            ],
        )
    }
}

// A term and what follows it.
fn joined(term: &[u8; 16], rest: &[u8; 12]) -> [u8; 28]
    ensures value { result ≡ term.now ++ rest.now }
    ensures width { length term.now ≡ 16 }
{
    let mut message = [0; 28];
    message[0..16].copy_from_slice(term);
    message[16..28].copy_from_slice(rest);
    message
}
