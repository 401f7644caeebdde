// Messages written from the offsets of their fields, and values that are no message.
use super::*;
use kinds::{IndexMarks, Paragraphs};
use std::fmt::Debug;
use std::process::Abort;

const PARAGRAPH: Paragraph = Paragraph {
    place: 0x0102_0304,
    origin: 2,
    sender: 250,
    state: State::Set,
    lines: 200,
    stamp: 0x0a0b_0c0d,
    text: 0xfffe_fdfc,
};

const PARAGRAPH_BYTES: [u8; 16] =
    *b"\x04\x03\x02\x01\x02\xfa\x01\xc8\x0d\x0c\x0b\x0a\xfc\xfd\xfe\xff";

const MARK: IndexMark = IndexMark {
    term: *b"Ox yoke\0\0\0\0\0\0\0\0\0",
    place: 0x0102_0304,
    origin: 1,
    sender: 250,
    state: State::Set,
    emphasis: 1,
    stamp: 0x0a0b_0c0d,
};

const MARK_BYTES: [u8; 28] =
    *b"Ox yoke\0\0\0\0\0\0\0\0\0\x04\x03\x02\x01\x01\xfa\x01\x01\x0d\x0c\x0b\x0a";

// A value is written in these bytes, and they are read as the value.
fn both_ways<const N: usize, T: Message<N> + Copy + PartialEq + Debug>(
    rt: &impl Abort,
    value: T,
    bytes: [u8; N],
) {
    assert_eq!(rt; value.encode(), bytes);
    assert_eq!(rt; T::decode(&bytes), Some(value));
}

#[test]
fn a_paragraph_and_its_message(rt: HostRuntime) {
    both_ways(&rt, PARAGRAPH, PARAGRAPH_BYTES);
}

#[test]
fn what_is_no_paragraph(rt: HostRuntime) {
    let long = Paragraph {
        lines: 201,
        ..PARAGRAPH
    };
    let cut_with_lines = Paragraph {
        state: State::Cut,
        text: 0,
        ..PARAGRAPH
    };
    let cut = Paragraph {
        state: State::Cut,
        lines: 0,
        text: 0,
        ..PARAGRAPH
    };
    assert_eq!(rt; Paragraph::decode(&long.encode()), None);
    assert_eq!(rt; Paragraph::decode(&cut_with_lines.encode()), None);
    assert_eq!(rt; Paragraph::decode(&cut.encode()), Some(cut));
    assert_eq!(rt; Paragraph::decode(&PARAGRAPH_BYTES[0..15]), None);
    assert!(rt; is_message::<Paragraphs>(&PARAGRAPH_BYTES));
    assert!(rt; !is_message::<IndexMarks>(&PARAGRAPH_BYTES));
}

#[test]
fn a_mark_and_its_message(rt: HostRuntime) {
    both_ways(&rt, MARK, MARK_BYTES);
}

#[test]
fn what_is_no_mark(rt: HostRuntime) {
    let spaced = IndexMark {
        term: *b" x yoke\0\0\0\0\0\0\0\0\0",
        ..MARK
    };
    assert_eq!(rt; IndexMark::decode(&MARK_BYTES[0..27]), None);
    assert_eq!(rt; IndexMark::decode(&spaced.encode()), None);
}
