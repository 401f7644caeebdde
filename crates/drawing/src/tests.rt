// Entries of the table, priorities of keys, and the order in which keys are drawn.
use super::*;

#[test]
fn table_entries(rt: HostRuntime) {
    // the standard's own worked example puts EDh for 53h
    for (x, y) in [
        (0, 0x63),
        (1, 0x7c),
        (0x53, 0xed),
        (0x52, 0),
        (0x7f, 0xd2),
        (0xff, 0x16),
    ] {
        assert_eq!(rt; substitute(x), y);
    }
}

#[test]
fn paragraph_keys(rt: HostRuntime) {
    // place, origin, priority
    let cases: [(u8, u8, u16); 12] = [
        (1, 1, 40437),
        (2, 3, 23899),
        (3, 1, 64627),
        (6, 1, 13978),
        (6, 3, 63382),
        (7, 3, 38647),
        (9, 3, 56702),
        (10, 1, 42947),
        (11, 3, 51005),
        (14, 2, 58566),
        (0x26, 2, 20648),
        (0x27, 1, 20648),
    ];
    for (place, origin, expected) in cases {
        assert_eq!(rt; priority(&[place, 0, 0, 0, origin]), expected);
    }
}

#[test]
fn keys_of_other_lengths(rt: HostRuntime) {
    assert_eq!(rt; priority(&[]), 1);
    assert_eq!(rt; chain(9, &[]), 9);
    assert_eq!(rt; priority(&[0x41, 0x9a, 0x45, 0x78, 0x54, 0x63]), 7634);
    assert_eq!(rt; priority(b"\xf8\x3c\x31\xe1\x96\x45\xb2\xee\xd5"), 41119);
    assert_eq!(rt;
        priority(b"`$uv\0\0\0\0\0\0\0\0\0\0\0\0\x07\0\0\0\x14"),
        33168
    );
}

#[test]
fn smaller_priorities_are_drawn_earlier(rt: HostRuntime) {
    let early = [6, 0, 0, 0, 1];
    let late = [1, 0, 0, 0, 1];
    for by_key in [Ordering::Less, Ordering::Equal, Ordering::Greater] {
        assert!(rt; drawn_before(&early, &late, by_key));
        assert!(rt; !drawn_before(&late, &early, by_key));
    }
    // these two have one priority, so the key order decides
    let low = [0x26, 0, 0, 0, 2];
    let high = [0x27, 0, 0, 0, 1];
    assert!(rt; drawn_before(&low, &high, Ordering::Less));
    assert!(rt; !drawn_before(&high, &low, Ordering::Greater));
    assert!(rt; !drawn_before(&low, &low, Ordering::Equal));
}
