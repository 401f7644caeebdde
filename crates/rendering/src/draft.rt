// A block that is written from the front.
ghost use Rattle.std.specs.Prelude.{◌≡◌, ◌+◌, ◌≤◌, [], length};
ghost use Rattle.image.specs.Image.{block_of};
ghost use Rattle.rendering.specs.Laid.{skipped_to, with_bytes};

use std::marker::Model;

// A block has 256 bytes, by the byte format. Clauses see which block is written, and the bytes that were put down so far; the rest
// of the block is zero.
#[derive(Drop)]
pub(crate) struct Draft<'a> {
    block: &'a mut [u8; 256],
    end: usize,
}

impl<'a> Model for Draft<'a> {
    ghost use Rattle.std.specs.Prelude.{take};
    ghost use Rattle.rendering.specs.Laid.{Begun, Laid};

    ghost Value = { Begun };

    ghost view = { λ draft. record { lent = draft.block.ghost_name; front = take draft.end draft.block.now } };

    ghost invariant = { λ draft. Laid (take draft.end draft.block.now) draft.end draft.block.now };
}

impl<'a> Draft<'a> {
    pub(crate) fn over(block: &'a mut [u8; 256]) -> Draft<'a>
        ensures { result ≡ record { lent = block.entry.ghost_name; front = [] } }
    {
        block.fill(0);
        Draft { block, end: 0 }
    }

    pub(crate) fn put(&mut self, bytes: &[u8])
        requires { length self.old.front + length bytes.now ≤ 256 }
        ensures { self.new ≡ with_bytes self.old bytes.now }
    {
        let end = self.end + bytes.len();
        let block = &mut *self.block;
        block[self.end..end].copy_from_slice(bytes);
        self.end = end;
    }

    // Leaves zeros up to an offset.
    pub(crate) fn skip_to(&mut self, end: usize)
        requires ahead { length self.old.front ≤ end }
        requires inside { end ≤ 256 }
        ensures skipped { self.new ≡ skipped_to end self.old }
        ensures end { length self.new.front ≡ end }
    {
        self.end = end;
    }

    // Gives the block back: the bytes that were put down, and zeros from there on.
    pub(crate) fn finish(self) -> &'a mut [u8; 256]
        ensures same_block { result.ghost_name ≡ self.entry.lent }
        ensures written { result.now ≡ block_of self.entry.front }
    {
        self.block
    }
}
