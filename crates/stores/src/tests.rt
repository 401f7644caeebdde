// Piles of stores, read, written and taken apart at their edges.
ghost use Rattle.std.specs.Prelude.{◌≡◌, ◌++◌, take, drop};
ghost use Rattle.stores.specs.Blocks.{write_blocks};
ghost use Rattle.stores.specs.Stores.{part};

use crate::faults::*;
use crate::memories::*;
use crate::pairs::*;
use crate::shelves::*;
use crate::store::*;
use std::alloc::Global;
use std::process::Abort;
use std::test::Fail;

// Memory whose block i is filled with i, and then `rest` bytes of 99.
fn numbered(heap: Global, blocks: u8, rest: usize) -> Result<Memory, Fail> {
    let mut bytes = Vec::new(heap);
    for i in 0..blocks {
        bytes.extend_from_slice(&[i; BLOCK_SIZE])?;
    }
    for _ in 0..rest {
        bytes.push(99)?;
    }
    Ok(Memory::new(bytes))
}

fn shelf(heap: Global, start: usize, limit: usize) -> Result<Shelf<Memory>, Fail> {
    Ok(Shelf::new(numbered(heap, 6, 10)?, start, limit))
}

// The store has these blocks, each filled with one byte, and refuses every other.
fn holds<S: BlockStore>(rt: &impl Abort, store: &mut S, filled: &[u8]) {
    assert_eq!(rt; store.count(), filled.len());
    for (n, byte) in filled.iter().enumerate() {
        let mut buffer = [77; BLOCK_SIZE];
        assert_eq!(rt; store.read(n, &mut buffer), Ok(()));
        assert!(rt; buffer == [*byte; BLOCK_SIZE]);
    }
    for block in [filled.len(), usize::MAX] {
        refused(rt, store, block, &mut [77; 256], StoreFault::NoBlock(block));
    }
    for block in [0, filled.len()] {
        refused(rt, store, block, &mut [], StoreFault::BufferLength(0));
        refused(
            rt,
            store,
            block,
            &mut [77; 255],
            StoreFault::BufferLength(255),
        );
        refused(
            rt,
            store,
            block,
            &mut [77; 257],
            StoreFault::BufferLength(257),
        );
    }
}

fn refused<S: BlockStore>(
    rt: &impl Abort,
    store: &mut S,
    block: usize,
    buffer: &mut [u8],
    fault: StoreFault,
) {
    assert_eq!(rt; store.read(block, buffer), Err(fault));
    assert_eq!(rt; store.write(block, buffer), Err(fault));
    for byte in buffer.iter() {
        assert_eq!(rt; *byte, 77);
    }
}

// The blocks hold these bytes; after block n is filled with `byte`, it alone holds another.
fn takes<S: BlockStore>(
    rt: &impl Abort,
    store: &mut S,
    before: &[u8],
    n: usize,
    byte: u8,
    after: &[u8],
) {
    holds(rt, store, before);
    assert_eq!(rt; store.write(n, &[byte; BLOCK_SIZE]), Ok(()));
    holds(rt, store, after);
}

// A shelf on a shelf is written and taken apart: the clauses of the calls give every block of the store at the bottom.
fn written_through<S: BlockStore>(store: S, buffer: &[u8]) -> S
    ensures blocks { S.blocks result ≡ take 1 (S.blocks store) ++ (take 2 (part 1 4 (S.blocks store)) ++ write_blocks (part 2 9 (part 1 4 (S.blocks store))) 0 buffer.now ++ drop 11 (part 1 4 (S.blocks store))) ++ drop 5 (S.blocks store) }
    ensures rest { S.rest result ≡ S.rest store }
{
    let mut shelf = Shelf::new(Shelf::new(store, 1, 4), 2, 9);
    let _ = shelf.write(0, buffer);
    shelf.into_store().into_store()
}

#[test]
fn memory_has_whole_blocks(rt: HostRuntime) -> Result<(), Fail> {
    for (blocks, rest, filled) in [
        (0, 0, b"" as &[u8]),
        (0, 255, b""),
        (1, 0, b"\0"),
        (2, 255, b"\0\x01"),
    ] {
        holds(&rt, &mut numbered(rt.alloc(), blocks, rest)?, filled);
    }
    let mut memory = numbered(rt.alloc(), 3, 1)?;
    takes(&rt, &mut memory, &[0, 1, 2], 0, 7, &[7, 1, 2]);
    takes(&rt, &mut memory, &[7, 1, 2], 2, 8, &[7, 1, 8]);
    Ok(())
}

#[test]
fn shelves_are_cut_to_what_lies_there(rt: HostRuntime) -> Result<(), Fail> {
    holds(&rt, &mut shelf(rt.alloc(), 0, 0)?, &[]);
    holds(&rt, &mut shelf(rt.alloc(), 6, 1)?, &[]);
    holds(&rt, &mut shelf(rt.alloc(), usize::MAX, usize::MAX)?, &[]);
    holds(&rt, &mut shelf(rt.alloc(), 5, usize::MAX)?, &[5]);
    takes(
        &rt,
        &mut shelf(rt.alloc(), 2, 3)?,
        &[2, 3, 4],
        2,
        9,
        &[2, 3, 9],
    );
    let mut below = written_through(numbered(rt.alloc(), 6, 0)?, &[9; BLOCK_SIZE]);
    holds(&rt, &mut below, &[0, 1, 2, 9, 4, 5]);
    takes(&rt, &mut shelf(rt.alloc(), 4, 10)?, &[4, 5], 0, 9, &[9, 5]);
    Ok(())
}

#[test]
fn pairs_stand_end_to_end(rt: HostRuntime) -> Result<(), Fail> {
    let heap = rt.alloc();
    let mut pair = Pair::new(numbered(heap, 2, 5)?, numbered(heap, 3, 0)?);
    takes(&rt, &mut pair, &[0, 1, 0, 1, 2], 1, 8, &[0, 8, 0, 1, 2]);
    takes(&rt, &mut pair, &[0, 8, 0, 1, 2], 2, 9, &[0, 8, 9, 1, 2]);
    holds(
        &rt,
        &mut Pair::new(shelf(heap, 6, 1)?, numbered(heap, 1, 0)?),
        &[0],
    );
    holds(
        &rt,
        &mut Pair::new(shelf(heap, 3, 2)?, shelf(heap, 9, 9)?),
        &[3, 4],
    );
    Ok(())
}

#[test]
fn a_pile_comes_apart_as_it_was_written(rt: HostRuntime) -> Result<(), Fail> {
    let heap = rt.alloc();
    let mut pile = Shelf::new(Pair::new(shelf(heap, 4, 2)?, shelf(heap, 1, 3)?), 1, 3);
    takes(&rt, &mut pile, &[5, 1, 2], 0, 200, &[200, 1, 2]);
    takes(&rt, &mut pile, &[200, 1, 2], 2, 201, &[200, 1, 201]);
    let mut pair = pile.into_store();
    holds(&rt, &mut pair, &[4, 200, 1, 201, 3]);
    let (first, second) = pair.into_stores();
    let mut below = first.into_store();
    holds(&rt, &mut below, &[0, 1, 2, 3, 4, 200]);
    holds(&rt, &mut second.into_store(), &[0, 1, 201, 3, 4, 5]);
    let bytes = below.into_bytes();
    assert!(rt; bytes.len() == 6 * 256 + 10);
    assert_eq!(rt;
        (
            bytes[5 * 256 - 1],
            bytes[5 * 256],
            bytes[6 * 256 - 1],
            bytes[6 * 256],
        ),
        (4, 200, 200, 99)
    );
    Ok(())
}

// The store is as large as one may be: its last block is there, and the one behind it is not.
fn is_full<S: BlockStore>(rt: &impl Abort, store: &mut S) {
    let mut buffer = [77; BLOCK_SIZE];
    assert_eq!(rt; store.count(), 65_535);
    assert_eq!(rt;
        store.read(65_535, &mut buffer),
        Err(StoreFault::NoBlock(65_535))
    );
    assert_eq!(rt; store.read(65_534, &mut buffer), Ok(()));
    assert!(rt; buffer == [0; BLOCK_SIZE]);
}

#[test]
fn no_store_has_more_than_65535_blocks(rt: HostRuntime) -> Result<(), Fail> {
    let heap = rt.alloc();
    let mut full = Memory::new(vec![in heap; 0; 65_535 * 256]?);
    is_full(&rt, &mut full);
    is_full(&rt, &mut Pair::new(full, numbered(heap, 3, 0)?));
    let mut large = Memory::new(vec![in heap; 0; 65_536 * 256 + 1]?);
    is_full(&rt, &mut large);
    is_full(&rt, &mut Pair::new(shelf(heap, 5, 1)?, large));
    Ok(())
}

#[test]
fn refusals_have_a_number_and_a_place(rt: HostRuntime) {
    for (fault, number, place) in [
        (StoreFault::NoBlock(5), 11, 5),
        (StoreFault::BufferLength(255), 12, 255),
    ] {
        assert_eq!(rt; (fault.number(), fault.place()), (number, place));
    }
}
