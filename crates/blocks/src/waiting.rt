// The list of the blocks that are still to be filled. There is no heap, so that it stands in an array.
ghost use Rattle.std.specs.Prelude.{◌≡◌, List, [], ◌∷◌, ◌<◌, ◌≤◌, length, take, drop, reverse, slice_get};
ghost use Rattle.pending.specs.Pending.{put_if};
ghost use Rattle.blocks.specs.declared.shape.Block.{Block};

use crate::shape::Block;
use std::marker::Model;

// At most 13 blocks, seen as a stack: the last one comes first.
#[derive(Drop)]
pub struct Pending {
    blocks: [Block; 13],
    len: usize,
}

impl Model for Pending {
    ghost Value = { List Block };

    ghost view = { λ p. reverse (take p.len p.blocks) };

    ghost invariant = { λ p. p.len ≤ 13 };
}

impl Pending {
    // One block alone.
    pub fn new(b: Block) -> Self
        ensures { result ≡ b ∷ [] }
    {
        Pending {
            blocks: [b; 13],
            len: 1,
        }
    }

    // Takes the last block, if there is one.
    pub fn pop(&mut self) -> Option<Block>
        ensures taken { result ≡ slice_get self.old 0 }
        ensures rest { self.new ≡ drop 1 self.old }
    {
        if self.len == 0 {
            return None;
        }
        self.len -= 1;
        Some(self.blocks[self.len])
    }

    // Puts a block on the list, or not.
    pub fn put_if(&mut self, wanted: bool, b: Block)
        requires { length self.old < 13 }
        ensures { self.new ≡ put_if wanted b self.old }
    {
        if wanted {
            self.blocks[self.len] = b;
            self.len += 1;
        }
    }
}
