// A paragraph as a typed value.
ghost use Rattle.messages.specs.Paragraph.{encoded, read as fields_of};

use crate::message::{Fields, Message};
use fields::{LittleEndian, byte_at};
use kinds::{Paragraphs, State};

// Lines and text stand beside the state, also for a cut, where they are 0: a value may hold what is not valid.
#[derive(Clone, Copy, PartialEq, Eq, Debug)]
pub struct Paragraph {
    pub place: u32,
    pub origin: u8,
    pub sender: u8,
    pub state: State,
    pub lines: u8,
    pub stamp: u32,
    pub text: u32,
}

impl Fields for Paragraph {
    type Kind = Paragraphs;

    ghost encoded = { encoded };

    ghost fields = { fields_of };

    fn read(message: &[u8]) -> Paragraph {
        Paragraph {
            place: u32::read_at(message, 0),
            origin: byte_at(message, 4),
            sender: byte_at(message, 5),
            state: State::try_from(byte_at(message, 6)).unwrap(),
            lines: byte_at(message, 7),
            stamp: u32::read_at(message, 8),
            text: u32::read_at(message, 12),
        }
    }
}

impl Message<16> for Paragraph {
    fn encode(&self) -> [u8; 16] {
        let Paragraph {
            place,
            origin,
            sender,
            state,
            lines,
            stamp,
            text,
        } = *self;
        let [p0, p1, p2, p3]: [u8; 4] = place.to_bytes();
        let [s0, s1, s2, s3]: [u8; 4] = stamp.to_bytes();
        let [t0, t1, t2, t3]: [u8; 4] = text.to_bytes();
        [
            p0,
            p1,
            p2,
            p3,
            origin,
            sender,
            u8::from(state),
            lines,
            s0,
            s1,
            s2,
            s3,
            t0,
            t1,
            t2,
            t3,
        ]
    }
}
