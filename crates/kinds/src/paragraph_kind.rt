// The kind of paragraphs.
ghost use Rattle.kinds.specs.Paragraphs.{paragraphs, paragraph_key, paragraph_rank};
ghost use Rattle.std.specs.Prelude.{refl};
ghost use Rattle.std.proofs.Common.{arith, lit≤};
ghost use Rattle.layout.proofs.Determined.{total_keys, total_ranks};
ghost use Rattle.fields.proofs.Numbers.{byte_lt};

use crate::kind::EntryKind;
use crate::rules;
use crate::state::State;
use fields::{LittleEndian, byte_at};
use layout::{Field, compare_fields, first_invalid};
use std::cmp::Ordering;

const PLACE: usize = 0;

const ORIGIN: usize = 4;

const SENDER: usize = 5;

const STATE: usize = 6;

const LINES: usize = 7;

const STAMP: usize = 8;

const TEXT: usize = 12;

const KEY_FIELDS: [Field; 2] = [Field::Number(PLACE), Field::Byte(ORIGIN)];

const RANK_FIELDS: [Field; 5] = [
    Field::Byte(STATE),
    Field::Number(STAMP),
    Field::Byte(SENDER),
    Field::Byte(LINES),
    Field::Number(TEXT),
];

pub struct Paragraphs;

impl EntryKind for Paragraphs {
    const NUMBER: u8 = 1;

    const WIDTH: usize = 16;

    const KEY_LENGTH: usize = 5;

    ghost NUMBER = { 1 };

    ghost WIDTH = { 16 };

    ghost KEY_LENGTH = { 5 };

    ghost kind = { paragraphs };

    ghost lawful = { record {
      number_low = lit≤ tt;
      number_high = lit≤ tt;
      width_low = lit≤ tt;
      width_high = lit≤ tt;
      key_low = lit≤ tt;
      key_high = lit≤ tt;
      keys = total_keys paragraph_key 5 refl;
      ranks = total_ranks paragraph_rank 5 16 refl;
      measure = λ m h. let below = byte_lt m 7 h in omega arith;
    } };

    ghost constants = { (refl, refl, refl) };

    fn invalid_at(message: &[u8]) -> Option<usize> {
        let state = State::try_from(byte_at(message, STATE));
        let lines = byte_at(message, LINES);
        let text = u32::read_at(message, TEXT);
        first_invalid(&[
            (ORIGIN, rules::is_office(byte_at(message, ORIGIN))),
            (SENDER, rules::is_office(byte_at(message, SENDER))),
            (STATE, state.is_ok()),
            (
                LINES,
                state.is_ok_and(|state| rules::lines_fit(state, lines)),
            ),
            (TEXT, state.is_ok_and(|state| rules::text_fits(state, text))),
        ])
    }

    fn measure(message: &[u8]) -> u16 {
        u16::from(byte_at(message, LINES))
    }

    fn compare_keys(a: &[u8], b: &[u8]) -> Ordering {
        compare_fields(a, b, &KEY_FIELDS)
    }

    fn compare_ranks(a: &[u8], b: &[u8]) -> Ordering {
        compare_fields(a, b, &RANK_FIELDS)
    }
}
