// A chapter of seven paragraphs with 3 slots to a block: its head and its root, as a separate model laid them down; and what
// makes the one wrong and the other malformed.
use image::{Counts, Head, SectionFields, Setting, Settings, TreeBlock};
use kinds::Paragraphs;
use std::alloc::{AllocError, Global};
use std::test::Fail;

const HEAD: [u8; 23] = [
    0x47, 0x41, 0x4c, 0x01, 0x00, 0x01, 0x03, 0x01, 0x00, 0x0f, 0x00, 0x07, 0x00, 0x04, 0x00, 0x67,
    0x02, 0x00, 0x00, 0xcc, 0x94, 0xd1, 0x02,
];

const ROOT: [u8; 85] = [
    0x03, 0x01, 0x07, 0x00, 0x07, 0x00, 0x00, 0x00, 0x07, 0x00, 0x00, 0x00, 0x01, 0x4b, 0x02, 0x00,
    0x3e, 0x7b, 0xbb, 0x7d, 0x00, 0x00, 0x00, 0x00, 0x0a, 0x00, 0x00, 0x00, 0x02, 0x4f, 0x01, 0x50,
    0x37, 0x4f, 0x0f, 0xaa, 0xb3, 0x79, 0x4c, 0x43, 0x1f, 0x00, 0x00, 0x00, 0x03, 0xa9, 0x01, 0x1e,
    0xa6, 0x38, 0x6d, 0x3f, 0xbf, 0x5a, 0x7f, 0x83, 0x00, 0x00, 0x00, 0x00, 0x00, 0x00, 0x00, 0x00,
    0x02, 0x00, 0x01, 0x00, 0xb9, 0x00, 0x00, 0x00, 0x03, 0x00, 0x02, 0x00, 0x95, 0x00, 0x00, 0x00,
    0x04, 0x00, 0x01, 0x00, 0xab,
];

// Offset and new byte: each makes the head wrong.
const WRONG: [(usize, u8); 9] = [
    (0, 0x46),
    (3, 2),
    (5, 2),
    (6, 0),
    (6, 11),
    (7, 0),
    (9, 0),
    (11, 16),
    (13, 8),
];

// Offset and new byte: each makes the root malformed. No entry, too many, another kind, an invalid office, keys that do not
// rise, a bit past the entries, a section that leads back, one that leads past the tree, too large a measure.
const MALFORMED: [(usize, u8); 9] = [
    (0, 0),
    (0, 4),
    (1, 2),
    (12, 0),
    (8, 0x20),
    (2, 0x0f),
    (64, 1),
    (64, 5),
    (63, 0xff),
];

// The bytes with zeros after them up to a block, and a byte replaced, if one is to be: its offset and what stands there instead.
fn block(heap: Global, bytes: &[u8], change: Option<(usize, u8)>) -> Result<Vec<u8>, AllocError> {
    (0..256)
        .map(|i| match change {
            Some((at, byte)) if at == i => byte,
            _ => fields::byte_at(bytes, i),
        })
        .collect(heap)
}

#[test]
fn heads(rt: HostRuntime) -> Result<(), Fail> {
    let right = block(rt.alloc(), &HEAD, None)?;
    let head = Head {
        settings: Settings {
            alpha: 3,
            rho: 1,
            capacity: 15,
        },
        counts: Counts {
            entries: 7,
            blocks: 4,
            measure: 615,
        },
        chapter: 47_289_548,
    };
    assert_eq!(rt; Head::read::<Paragraphs>(right.as_slice()), Some(head));
    for change in WRONG {
        let wrong = block(rt.alloc(), &HEAD, Some(change))?;
        assert!(rt; Head::read::<Paragraphs>(wrong.as_slice()).is_none());
    }
    Ok(())
}

#[test]
fn roots(rt: HostRuntime) -> Result<(), Fail> {
    let bytes = block(rt.alloc(), &ROOT, None)?;
    let root = TreeBlock::<Paragraphs>::new(bytes.as_slice(), 3);
    assert!(rt; root.is_well_formed(4, 1));
    assert_eq!(rt; (root.entries(), root.section_count()), (3, 4));
    assert_eq!(rt;
        root.section(2),
        SectionFields {
            number: 3,
            weight: 2,
            measure: 149,
        }
    );
    assert_eq!(rt; (root.slots().count(), root.sections().count()), (3, 4));
    assert!(rt; root.find(&[10, 0, 0, 0, 2]).is_some());
    assert!(rt; root.find(&[9, 0, 0, 0, 2]).is_none());
    assert_eq!(rt; root.section_for(&[9, 0, 0, 0, 2]), 1);
    assert_eq!(rt; root.next_block(&[9, 0, 0, 0, 2]), Some(2));
    assert_eq!(rt; root.section_for(&[7, 0, 0, 0, 1]), 0);
    assert_eq!(rt; root.next_block(&[40, 0, 0, 0, 1]), Some(4));
    for change in MALFORMED {
        let bad = block(rt.alloc(), &ROOT, Some(change))?;
        assert!(rt; !TreeBlock::<Paragraphs>::new(bad.as_slice(), 3).is_well_formed(4, 1));
    }
    Ok(())
}

#[test]
fn measures(rt: HostRuntime) -> Result<(), Fail> {
    let bytes = block(rt.alloc(), &ROOT, None)?;
    let root = TreeBlock::<Paragraphs>::new(bytes.as_slice(), 3);
    assert_eq!(rt; root.measure_before(&[7, 0, 0, 0, 1]), 0);
    assert_eq!(rt; root.measure_before(&[10, 0, 0, 0, 2]), 0);
    assert_eq!(rt; root.measure_before(&[11, 0, 0, 0, 2]), 265);
    assert_eq!(rt; root.measure_before(&[40, 0, 0, 0, 1]), 444);
    Ok(())
}

#[test]
fn limits(rt: HostRuntime) {
    let at = Settings {
        alpha: 10,
        rho: 2_000,
        capacity: 2_000,
    };
    assert!(rt; at.fit(16));
    assert_eq!(rt; at.out_of_limits(17), Some(Setting::Alpha));
    assert!(rt; !at.fit(28));
}
