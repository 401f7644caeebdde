// The kind of index marks.
ghost use Rattle.std.specs.Prelude.{◌≤◌, ◌==◌, slice_index, refl};
ghost use Rattle.kinds.specs.IndexMarks.{index_marks, mark_key, mark_rank};
ghost use Rattle.std.proofs.Common.{arith, lit≤};
ghost use Rattle.std.proofs.lemmas.Bool.{cond_both};
ghost use Rattle.layout.proofs.Determined.{total_keys, total_ranks};

use crate::kind::EntryKind;
use crate::rules;
use crate::state::State;
use fields::{byte_at, slice_at};
use layout::{Field, compare_fields, first_invalid};
use std::cmp::Ordering;

const TERM: usize = 0;

const TERM_WIDTH: usize = 16;

const PLACE: usize = 16;

const ORIGIN: usize = 20;

const SENDER: usize = 21;

const STATE: usize = 22;

const EMPHASIS: usize = 23;

const STAMP: usize = 24;

// The term without regard to case, then the term as it is, then place and origin.
const KEY_FIELDS: [Field; 34] = [
    Field::Folded(0),
    Field::Folded(1),
    Field::Folded(2),
    Field::Folded(3),
    Field::Folded(4),
    Field::Folded(5),
    Field::Folded(6),
    Field::Folded(7),
    Field::Folded(8),
    Field::Folded(9),
    Field::Folded(10),
    Field::Folded(11),
    Field::Folded(12),
    Field::Folded(13),
    Field::Folded(14),
    Field::Folded(15),
    Field::Byte(0),
    Field::Byte(1),
    Field::Byte(2),
    Field::Byte(3),
    Field::Byte(4),
    Field::Byte(5),
    Field::Byte(6),
    Field::Byte(7),
    Field::Byte(8),
    Field::Byte(9),
    Field::Byte(10),
    Field::Byte(11),
    Field::Byte(12),
    Field::Byte(13),
    Field::Byte(14),
    Field::Byte(15),
    Field::Number(PLACE),
    Field::Byte(ORIGIN),
];

const RANK_FIELDS: [Field; 4] = [
    Field::Byte(STATE),
    Field::Number(STAMP),
    Field::Byte(SENDER),
    Field::Byte(EMPHASIS),
];

pub struct IndexMarks;

impl EntryKind for IndexMarks {
    const NUMBER: u8 = 2;

    const WIDTH: usize = 28;

    const KEY_LENGTH: usize = 21;

    ghost NUMBER = { 2 };

    ghost WIDTH = { 28 };

    ghost KEY_LENGTH = { 21 };

    ghost kind = { index_marks };

    ghost lawful = { record {
      number_low = lit≤ tt;
      number_high = lit≤ tt;
      width_low = lit≤ tt;
      width_high = lit≤ tt;
      key_low = lit≤ tt;
      key_high = lit≤ tt;
      keys = total_keys mark_key 21 refl;
      ranks = total_ranks mark_rank 21 28 refl;
      measure = λ m h. cond_both (slice_index m 22 == 1) 1 0 (λ n. n ≤ 1000) (λ _. omega arith) (λ _. omega arith);
    } };

    ghost constants = { (refl, refl, refl) };

    fn invalid_at(message: &[u8]) -> Option<usize> {
        let state = State::try_from(byte_at(message, STATE));
        let emphasis = byte_at(message, EMPHASIS);
        first_invalid(&[
            (TERM, rules::is_term(slice_at(message, TERM, TERM_WIDTH))),
            (ORIGIN, rules::is_office(byte_at(message, ORIGIN))),
            (SENDER, rules::is_office(byte_at(message, SENDER))),
            (STATE, state.is_ok()),
            (
                EMPHASIS,
                state.is_ok_and(|state| rules::emphasis_fits(state, emphasis)),
            ),
        ])
    }

    fn measure(message: &[u8]) -> u16 {
        match State::try_from(byte_at(message, STATE)) {
            Ok(State::Set) => 1,
            _ => 0,
        }
    }

    fn compare_keys(a: &[u8], b: &[u8]) -> Ordering {
        compare_fields(a, b, &KEY_FIELDS)
    }

    fn compare_ranks(a: &[u8], b: &[u8]) -> Ordering {
        compare_fields(a, b, &RANK_FIELDS)
    }
}
