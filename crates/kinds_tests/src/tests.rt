// Messages at the edge of every field, orders of messages that differ in one field, and figures of a separate model.
use kinds::{EntryKind, IndexMarks, Paragraphs, State, UnknownState, drawn_before};
use std::cmp::Ordering;
use std::process::Abort;

// A set paragraph of place 1, origin and sender office 1, with 10 lines, stamp 1 and text 0, and a cut one.
const SET_PARAGRAPH: [u8; 16] = [1, 0, 0, 0, 1, 1, 1, 10, 1, 0, 0, 0, 0, 0, 0, 0];

const CUT_PARAGRAPH: [u8; 16] = [1, 0, 0, 0, 1, 1, 2, 0, 1, 0, 0, 0, 0, 0, 0, 0];

// A mark of the term "Ox yoke" at place 1, origin and sender office 1, with emphasis 1 and stamp 1, and a cut one.
const SET_MARK: [u8; 28] = *b"Ox yoke\0\0\0\0\0\0\0\0\0\x01\0\0\0\x01\x01\x01\x01\x01\0\0\0";

const CUT_MARK: [u8; 28] = *b"Ox yoke\0\0\0\0\0\0\0\0\0\x01\0\0\0\x01\x01\x02\0\x01\0\0\0";

// The message with another byte at an offset.
fn with_byte<const N: usize>(
    rt: &impl Abort,
    mut message: [u8; N],
    at: usize,
    byte: u8,
) -> [u8; N] {
    assert!(rt; at < N);
    message[at] = byte;
    message
}

// The offset of a byte that is changed, its value, and the offset of the first field that is then invalid, if one is.
type Edge = (usize, u8, Option<usize>);

// The message with each of these changes has that invalid field.
fn edges<K: EntryKind, const N: usize>(rt: &impl Abort, message: [u8; N], cases: &[Edge]) {
    for (at, byte, expected) in cases {
        let changed = with_byte(rt, message, *at, *byte);
        assert_eq!(rt; K::invalid_at(&changed), *expected);
    }
}

// Every two of some bytes are ordered as they stand.
fn ascend<const N: usize, F: Fn(&[u8], &[u8]) -> Ordering>(
    rt: &impl Abort,
    ascending: &[[u8; N]],
    compare: F,
)
    requires { F.IsAlwaysCallable compare }
{
    for (i, a) in ascending.iter().enumerate() {
        for (j, b) in ascending.iter().enumerate() {
            assert_eq!(rt; compare(a, b), i.cmp(&j));
        }
    }
}

#[test]
fn states_and_their_numbers(rt: HostRuntime) {
    assert_eq!(rt; (u8::from(State::Set), u8::from(State::Cut)), (1, 2));
    assert_eq!(rt; State::try_from(1), Ok(State::Set));
    assert_eq!(rt; State::try_from(2), Ok(State::Cut));
    for number in [0, 3, 255] {
        assert_eq!(rt; State::try_from(number), Err(UnknownState(number)));
    }
}

#[test]
fn numbers_and_widths(rt: HostRuntime) {
    assert_eq!(rt;
        (
            Paragraphs::kind_number(),
            Paragraphs::message_width(),
            Paragraphs::key_width(),
        ),
        (1, 16, 5)
    );
    assert_eq!(rt;
        (
            IndexMarks::kind_number(),
            IndexMarks::message_width(),
            IndexMarks::key_width(),
        ),
        (2, 28, 21)
    );
    assert_eq!(rt;
        (
            Paragraphs::NUMBER,
            Paragraphs::WIDTH,
            Paragraphs::KEY_LENGTH,
        ),
        (1, 16, 5)
    );
    assert_eq!(rt;
        (
            IndexMarks::NUMBER,
            IndexMarks::WIDTH,
            IndexMarks::KEY_LENGTH,
        ),
        (2, 28, 21)
    );
}

#[test]
fn edges_of_a_set_paragraph(rt: HostRuntime) {
    let cases: [Edge; 20] = [
        (0, 255, None),
        (3, 255, None),
        (4, 0, Some(4)),
        (4, 250, None),
        (4, 251, Some(4)),
        (5, 0, Some(5)),
        (5, 250, None),
        (5, 251, Some(5)),
        (6, 0, Some(6)),
        (6, 2, Some(7)),
        (6, 3, Some(6)),
        (7, 0, Some(7)),
        (7, 1, None),
        (7, 200, None),
        (7, 201, Some(7)),
        (7, 255, Some(7)),
        (8, 255, None),
        (11, 255, None),
        (12, 1, None),
        (15, 255, None),
    ];
    edges::<Paragraphs, _>(&rt, SET_PARAGRAPH, &cases);
}

#[test]
fn edges_of_a_cut_paragraph(rt: HostRuntime) {
    let cases: [Edge; 7] = [
        (6, 2, None),
        (6, 1, Some(7)),
        (7, 1, Some(7)),
        (12, 1, Some(12)),
        (15, 1, Some(12)),
        (8, 255, None),
        (4, 251, Some(4)),
    ];
    edges::<Paragraphs, _>(&rt, CUT_PARAGRAPH, &cases);
}

#[test]
fn edges_of_a_set_mark(rt: HostRuntime) {
    let cases: [Edge; 24] = [
        (0, 0, Some(0)),
        (0, 0x1f, Some(0)),
        (0, 0x20, Some(0)),
        (0, 0x21, None),
        (0, 0x7e, None),
        (0, 0x7f, Some(0)),
        (3, 0, Some(0)),
        (6, 0x1f, Some(0)),
        (6, 0x20, None),
        (6, 0x7e, None),
        (6, 0x7f, Some(0)),
        (6, 0, None),
        (8, 0x41, Some(0)),
        (15, 1, Some(0)),
        (16, 255, None),
        (20, 0, Some(20)),
        (20, 251, Some(20)),
        (21, 0, Some(21)),
        (21, 251, Some(21)),
        (22, 0, Some(22)),
        (22, 3, Some(22)),
        (23, 0, None),
        (23, 2, Some(23)),
        (27, 255, None),
    ];
    edges::<IndexMarks, _>(&rt, SET_MARK, &cases);
    assert_eq!(rt; IndexMarks::invalid_at(&CUT_MARK), None);
    assert_eq!(rt;
        IndexMarks::invalid_at(&with_byte(&rt, CUT_MARK, 23, 1)),
        Some(23)
    );
}

#[test]
fn bytes_that_are_not_there_are_zero(rt: HostRuntime) {
    assert_eq!(rt; Paragraphs::invalid_at(&[]), Some(4));
    assert_eq!(rt; Paragraphs::invalid_at(&[0, 0, 0, 0, 1, 1, 2]), None);
    assert_eq!(rt; Paragraphs::measure(&[0, 0, 0, 0, 1, 1, 1]), 0);
    assert_eq!(rt;
        Paragraphs::compare_keys(&[1, 0, 0, 0, 0], &[1]),
        Ordering::Equal
    );
    assert_eq!(rt; IndexMarks::invalid_at(b"Ox"), Some(20));
    assert_eq!(rt; IndexMarks::invalid_at(&[]), Some(0));
    assert_eq!(rt; IndexMarks::measure(b"Ox"), 0);
}

#[test]
fn paragraph_ranks_field_by_field(rt: HostRuntime) {
    // a later field that is larger never outweighs an earlier one that is smaller
    let ascending: [[u8; 16]; 8] = [
        [1, 0, 0, 0, 1, 9, 1, 9, 9, 0, 0, 0, 9, 0, 0, 0],
        [1, 0, 0, 0, 1, 9, 1, 9, 9, 0, 0, 0, 0, 1, 0, 0],
        [1, 0, 0, 0, 1, 9, 1, 10, 9, 0, 0, 0, 0, 0, 0, 0],
        [1, 0, 0, 0, 1, 10, 1, 1, 9, 0, 0, 0, 0, 0, 0, 0],
        [1, 0, 0, 0, 1, 1, 1, 1, 10, 0, 0, 0, 0, 0, 0, 0],
        [1, 0, 0, 0, 1, 1, 1, 1, 0, 0, 0, 1, 0, 0, 0, 0],
        [1, 0, 0, 0, 1, 1, 2, 0, 0, 0, 0, 0, 0, 0, 0, 0],
        [1, 0, 0, 0, 1, 1, 2, 0, 1, 0, 0, 0, 0, 0, 0, 0],
    ];
    ascend(&rt, &ascending, |a, b| Paragraphs::compare_ranks(a, b));
}

#[test]
fn mark_keys_field_by_field(rt: HostRuntime) {
    // without regard to case first, then with it, then by place, then by origin
    let ascending: [[u8; 21]; 8] = [
        *b"@~~~\0\0\0\0\0\0\0\0\0\0\0\0\x09\0\0\0\x09",
        *b"[~~~\0\0\0\0\0\0\0\0\0\0\0\0\x09\0\0\0\x09",
        *b"`~~~\0\0\0\0\0\0\0\0\0\0\0\0\x09\0\0\0\x09",
        *b"Ab\0\0\0\0\0\0\0\0\0\0\0\0\0\0\x09\0\0\0\x09",
        *b"ab\0\0\0\0\0\0\0\0\0\0\0\0\0\0\x01\0\0\0\x09",
        *b"ab\0\0\0\0\0\0\0\0\0\0\0\0\0\0\0\x01\0\0\x01",
        *b"ab\0\0\0\0\0\0\0\0\0\0\0\0\0\0\0\x01\0\0\x02",
        *b"AC\0\0\0\0\0\0\0\0\0\0\0\0\0\0\0\0\0\0\x01",
    ];
    ascend(&rt, &ascending, |a, b| IndexMarks::compare_keys(a, b));
}

fn figure<K: EntryKind>(rt: &impl Abort, message: &[u8], offset: Option<usize>, measure: u16) {
    assert_eq!(rt; K::invalid_at(message), offset);
    assert_eq!(rt; K::measure(message), measure);
}

fn keys<K: EntryKind>(rt: &impl Abort, a: &[u8], b: &[u8], order: Ordering) {
    assert_eq!(rt; K::compare_keys(a, b), order);
}

fn ranks<K: EntryKind>(rt: &impl Abort, a: &[u8], b: &[u8], order: Ordering) {
    assert_eq!(rt; K::compare_ranks(a, b), order);
}

#[test]
fn orders_of_pairs_that_differ_in_one_field(rt: HostRuntime) {
    keys::<Paragraphs>(&rt, &[255, 0, 0, 0, 1], &[0, 1, 0, 0, 1], Ordering::Less);
    keys::<Paragraphs>(&rt, &[1, 0, 0, 0, 1], &[1, 0, 0, 0, 2], Ordering::Less);
    keys::<Paragraphs>(&rt, &[2, 0, 0, 0, 1], &[1, 0, 0, 0, 250], Ordering::Greater);
    let changes: [(usize, u8); 6] = [(22, 2), (24, 2), (27, 1), (21, 2), (23, 2), (26, 1)];
    for (at, byte) in changes {
        let higher = with_byte(&rt, SET_MARK, at, byte);
        ranks::<IndexMarks>(&rt, &SET_MARK, &higher, Ordering::Less);
        ranks::<IndexMarks>(&rt, &higher, &SET_MARK, Ordering::Greater);
    }
}

#[test]
fn paragraph_figures(rt: HostRuntime) {
    figure::<Paragraphs>(
        &rt,
        b"\x1b\x00 \x00\x02;\x01d\xbf\x0f<\x04\x95\xe3 #",
        None,
        100,
    );
    figure::<Paragraphs>(
        &rt,
        b"\x1a\x00\x00\x00\x02\xbd\x02\x00G\xf1\x18\xe8\x00\x00\x00\x00",
        None,
        0,
    );
    figure::<Paragraphs>(
        &rt,
        b"\x1d\x00\x00\x00\x02\xd1\xfb\x00\xc4\x80\xd7\xe2\xfa\x00\x00\x00",
        Some(6),
        0,
    );
    figure::<Paragraphs>(
        &rt,
        b"\x22\x00\x00\x00\x02\xe7\x03\xb2<\xff\x05\xf4\xf3\x08G\x13",
        Some(6),
        178,
    );
    figure::<Paragraphs>(
        &rt,
        b"\x0d\x00\x00\x00\x02\xfb\x01@\xb4 @\x1cf9\xf7\x1c",
        Some(5),
        64,
    );
    figure::<Paragraphs>(
        &rt,
        b"\xfa\x00\x00\x00\x03R\x02\x00\xc9\xd6\x85d\x00\x00\xc8\x00",
        Some(12),
        0,
    );
    figure::<Paragraphs>(
        &rt,
        b"\x15\x00\x00\x00\xff\xb8\xc8\x9d;\x1d\xea\xcfH\xe20\xcc",
        Some(4),
        157,
    );
    figure::<Paragraphs>(
        &rt,
        b"\x11\x00\x00\x00\x03\xa3\x02\x02wC.\xb2\x00\x00\x00\x00",
        Some(7),
        2,
    );
    figure::<Paragraphs>(
        &rt,
        b"\x1c\x00\x00~\x02\xa0\x02\x00\xdd\xdf\x18\x05\x00\x00 \x00",
        Some(12),
        0,
    );
    figure::<Paragraphs>(
        &rt,
        b"\x04\x00\x00\x00\x03\xff\x01\xbb,\xde\x10A4\x7f\x1a\xac",
        Some(5),
        187,
    );
    figure::<Paragraphs>(
        &rt,
        b"\x03\x00\x00\x00\x03\xa6\x01\xfb\xa4\xfd\x89\xeb\x18\x85\x1d\x7f",
        Some(7),
        251,
    );
}

#[test]
fn mark_figures(rt: HostRuntime) {
    figure::<IndexMarks>(
        &rt,
        b"z\x00\x00\x00 \x00\x00\x00\x00\x00\x00\xfb\x00\x00\x00\x00\x07\x00\x00\x00p\x9c\x02\x00\xa6\x08\x9c;",
        Some(0),
        0,
    );
    figure::<IndexMarks>(
        &rt,
        b"Fsxs4{$z`0g\x03eNl*\x07\x00\x00\x00v\x10\x01\x01\xa3dm\xc9",
        Some(0),
        1,
    );
    figure::<IndexMarks>(
        &rt,
        b"\x229qH=gysz'WWAf\x00\x00\x08\x00\x00\x00)\x07\x01\x01zwX\x19",
        None,
        1,
    );
    figure::<IndexMarks>(
        &rt,
        b"t{U4X2Y[s\x00\x00\x00\x00\x00\x00\x00\x05\x00\x00\x00\xceL\x02\xfb\xfek,}",
        Some(23),
        0,
    );
    figure::<IndexMarks>(
        &rt,
        b"s,Cus{\x5c?\x00\x00\x00\x00\x00\x00\x00\x00\x16\xfb\x00\x00\xe6e\x02\x00wp\xa4\xea",
        None,
        0,
    );
    figure::<IndexMarks>(
        &rt,
        b"X9 AQ@K+ZR\x00\x00\x00\x00\x00\x00\x1d\x00\x00\x00\x83\xff\x02\x00\xd0\x13/S",
        Some(21),
        0,
    );
    figure::<IndexMarks>(
        &rt,
        b")tk}zHh~b_&\x00\x00\x00\x00\x00\x03\xfb\x00\x00~\xfb\x01\x01\x1a\x10&\xd9",
        Some(21),
        1,
    );
    figure::<IndexMarks>(
        &rt,
        b"5<Q9j,I7;-5UUJA3&\x00\x00\x00\x12v \x00\xbf\xcbbV",
        Some(22),
        0,
    );
}

#[test]
fn key_order_figures(rt: HostRuntime) {
    keys::<Paragraphs>(
        &rt,
        b"\x0b\x00\x00\x00\x03",
        b"#\x00\x00\x00\x02",
        Ordering::Less,
    );
    keys::<Paragraphs>(
        &rt,
        b"\x22\x00\x00\x00\x02",
        b"\x22\x00\x00\x00\x02",
        Ordering::Equal,
    );
    keys::<Paragraphs>(
        &rt,
        b" \x00\x00\x00\x03",
        b" \x00\x00\x00\x03",
        Ordering::Equal,
    );
    keys::<Paragraphs>(
        &rt,
        b"\x19\x00\x00\x00\x02",
        b"\x19\x00\x00~\x02",
        Ordering::Less,
    );
    keys::<Paragraphs>(
        &rt,
        b"!\x00\x00\x00\x02",
        b"!\x00\x00\x00\x01",
        Ordering::Greater,
    );
    keys::<Paragraphs>(
        &rt,
        b"\x1c\x00\x00\x00\x01",
        b"\x0d\x00\x00\x00\x02",
        Ordering::Greater,
    );
    keys::<IndexMarks>(
        &rt,
        b"%`v+Uk\x00\x00\x00\x00\x00\x00\x00\x00\x00\x00$\x00\x00\x00x",
        b"%`v+Uk\x00\x00\x00\x00\x00\x00\x00\x00\x00\x00$\x00\x00\x00x",
        Ordering::Equal,
    );
    keys::<IndexMarks>(
        &rt,
        b"*u9u\x5c\x22$#oF'3\x00\x00\x00\x00%\x00\x00\x00\xd2",
        b"*u9u\x5c\x22$#oF'3\x00\x00\x00\x00%\x00\x00\x00\xd2",
        Ordering::Equal,
    );
    keys::<IndexMarks>(
        &rt,
        b"<50bj_5'2Jfa=4\x00\x00\x17\x00\x00\x00J",
        b"<50bj_5'2Jfa=4\x00\x00\x17\x00\x00\x00J",
        Ordering::Equal,
    );
    keys::<IndexMarks>(
        &rt,
        b"z+L PiSYftR<uj\x00\x00\x1c\x00\x00\x00:",
        b"z+L \xc9iSYftR<uj\x00\x00\x1c\x00\x00\x00:",
        Ordering::Less,
    );
    keys::<IndexMarks>(
        &rt,
        b"io.ut\x00\x00\x00\x00\x00\x00\x00\x00\x00\x00\x00\x15\x00\x00\x00\x1c",
        b"\xc8o.ut\x00\x00\x00\x00\x00\x00\x00\x00\x00\x00\x00\x15\x00\x00\x00\x1c",
        Ordering::Less,
    );
    keys::<IndexMarks>(
        &rt,
        b"TzyYIttUyAjK\x00\x00\x00\x00\x11\x00\x00\x00\x1a",
        b"VMe\x00\x00\x00\x00\x00\x00\x00\x00\x00\x00\x00\x00\x00'\x00\x00\x00\xb0",
        Ordering::Less,
    );
    keys::<IndexMarks>(
        &rt,
        b"XCS.\x00\x00\x00\x00\x00\x00\x00\x00\x00\x00\x00\x00\x18\x00\x00\x00\xd4",
        b"ddMoYTAe(f7L2)\x00\x00!\x00\x00\x00,",
        Ordering::Greater,
    );
    keys::<IndexMarks>(
        &rt,
        b"hed10]+ihg-(ME\x00\x00\x06\x00\x00\x00\xa5",
        b"he\x0010]+ihg-(ME\x00\x00\x06\x00\x00\x00\xa5",
        Ordering::Greater,
    );
    keys::<IndexMarks>(
        &rt,
        b"z\x00\x00\x00\x00\x00\x00\x00\x00\x00\x00\x00\x00\x00\x00\x00\x0a\x00\x00\x00y",
        b"UayNX|)\x00\x00\x00\x00\x00\x00\x00\x00\x00 \x00\x00\x00\xcc",
        Ordering::Greater,
    );
}

#[test]
fn rank_order_figures(rt: HostRuntime) {
    ranks::<Paragraphs>(
        &rt,
        b"\x22\x00\x00\x00\x02o\x01\x89\xef\xda\xe6\x152]n\xfa",
        b"\x22\x00\x00\x00\x02o\x01\x89\xff\xda\xe6\x152]n\xfa",
        Ordering::Less,
    );
    ranks::<Paragraphs>(
        &rt,
        b" \x00\x00\x00\x03\xb6\x01F6\xdd\xb8\xbbL\x16\xc2\xc1",
        b" \x00\x00\x00\x03\xb6\x01F6\x00\x00\xbbL\x16\xc2\xc1",
        Ordering::Greater,
    );
    ranks::<Paragraphs>(
        &rt,
        b"\x1b\x00\x00\x00\x02\xe1\x02\x00\xe9?\x0al\x00\x00\x00\x00",
        b"\x1b\x00\x00\x00\x02\xe1\x02\x00\xe9\x01\x0al\x00\x00\x00\x00",
        Ordering::Greater,
    );
    ranks::<Paragraphs>(
        &rt,
        b"\x17\x00\x00\x00\x01\xc5\x02\x00.\xd29\xd0\x00\x00\x00\x00",
        b"\x17\x00\x00\x00\x01\x7f\x02\x00.\xd29\xd0\x00\x00\x00\x00",
        Ordering::Greater,
    );
    ranks::<Paragraphs>(
        &rt,
        b"'\x00\x00\x00\x01\xc0\x02\x00\xcc\x06\xde\x06\x00\x00\x00\x00",
        b"'\x00\x00\x00\x01\xc0\x02\x02\xcc\x06\xde\x7f\x00\x00\x00\x00",
        Ordering::Less,
    );
    ranks::<Paragraphs>(
        &rt,
        b"\x12\x00\x00\x00\x02\xe8\x02\x00\xc5o\x83N\x00\x00\x00\x00",
        b"\x12\x00\x00\x00\x02\xe8\x02\x00\xc5o\x83N\x00\x00\x00\xc9",
        Ordering::Less,
    );
    ranks::<IndexMarks>(
        &rt,
        b"%`v+Uk\x00\x00\x00\x00\x00\x00\x00\x00\x00\x00$\x00\x00\x00x}\x02\x00\x0f\x08\xf5\xfd",
        b"%`v+Uk\x00\x00\x00\x00\x00\x00\x00\x00\x00\x00$\x00\x00\x00x}\x02\x00\x0f\x08\xf5\xfd",
        Ordering::Equal,
    );
    ranks::<IndexMarks>(
        &rt,
        b"*u9u\x5c\x22$#oF'3\x00\x00\x00\x00%\x00\x00\x00\xd2x\x01\x01\xa1(2\x97",
        b"*u9u\x5c\x22$#oF'3\x00\x00\x00\x00%\x00\x00\x00\xd2x\x01\x01\xc9(2\x97",
        Ordering::Less,
    );
    ranks::<IndexMarks>(
        &rt,
        b"<50bj_5'2Jfa=4\x00\x00\x17\x00\x00\x00J\xd4\x01\x00\xd1\xd5\xed\xcd",
        b"<50bj_5'2Jfa=4\x00\x00\x17\x00\x00\x00J\x00\x01\x00\xd1\xd5\xed\xcd",
        Ordering::Greater,
    );
    ranks::<IndexMarks>(
        &rt,
        b"Ki%mUo-_\x22\x00\x00\x00\x00\x00\x00\x00\x11\x00\x00\x00#c\x01\x00\xa3\xf9x\xc2",
        b"Ki%mUo-_\x22\x00\x00\x00\x00\x00\x00\x00\x11\x00\x00\x00#c\x01\x00\xa3\xf9x\xc2",
        Ordering::Equal,
    );
    ranks::<IndexMarks>(
        &rt,
        b"<\x00\x00\x00\x00\x00\x00\x00\x00\x00\x00\x00\x00\x00\x00\x00\x0b\x00\x00\x00\xe0\xcb\x02\x00X\xff/R",
        b"<\x00\x00\x00\x00\x00\x00\x00\x00\x00\x00\x00\x00\x00\x00\x00\x0b\x00\x00\x00\xe0\xcb\x02\x00X\xff/R",
        Ordering::Equal,
    );
    ranks::<IndexMarks>(
        &rt,
        b"m3M{\x00\x00\x00\x00\x00\x00\x00\x00\x00\x00\x00\x00\x19\x00\x00\x00\x0a\x19\x02\x00\xb1l\xb1\xeb",
        b"m3M{\x00\x00\x00\x00\x00\x00\x00\x00\x00\x00\x00\x00\x19\x00\x00\x00\x0a\x19\x02\x00\xb1l \xeb",
        Ordering::Greater,
    );
    ranks::<IndexMarks>(
        &rt,
        b"%N6V; xcq\x00\x00\x00\x00\x00\x00\x00\x1b\x00\x00\x00\xb0:\x02\x00\x1c\x93\xd3\x90",
        b"%N6V; xcq\x00\x00\x00\x00\x00\x00\x00\x1b\x00\x00\x00\xb0:\x03\x00\x1c\x93\xd3\x90",
        Ordering::Less,
    );
    ranks::<IndexMarks>(
        &rt,
        b"p]j>[p\x00\x00\x00\x00\x00\x00\x00\x00\x00\x00!\x00\x00\x00i\x97\x02\x001\x97\xb4\x06",
        b"p]j>[p\x00\x00\x00\x00\x00\x00\x00\x00\x00\x00!\x00\x00\x00i\x89\x02\x00K\x9e\x98\xdc",
        Ordering::Less,
    );
    ranks::<IndexMarks>(
        &rt,
        b"rXjVyDj$q\x00\x00\x00\x00\x00\x00\x00\x1f\x00\x00\x00\x0a\xd5\x01\x01\x96\x09\xfa\x0b",
        b"rXjVyDj$q\x00\x00\x00\x00\x00\x00\x00\x1f\x00\x00\x00\x0a\x00\x01\x01\x96\x09\xfa\x0b",
        Ordering::Greater,
    );
}

#[test]
fn drawing_order(rt: HostRuntime) {
    // places 1 to 8 of office 1, in the order in which they are drawn
    let places: [u8; 8] = [6, 4, 2, 5, 7, 1, 8, 3];
    for (i, a) in places.iter().enumerate() {
        for (j, b) in places.iter().enumerate() {
            let drawn = drawn_before::<Paragraphs>(&[*a, 0, 0, 0, 1], &[*b, 0, 0, 0, 1]);
            assert_eq!(rt; drawn, i < j);
        }
    }
    // one priority, so the smaller place is drawn first
    assert!(rt; drawn_before::<Paragraphs>(&[38, 0, 0, 0, 2], &[39, 0, 0, 0, 1]));
    assert!(rt; !drawn_before::<Paragraphs>(&[39, 0, 0, 0, 1], &[38, 0, 0, 0, 2]));
}
