//! The open blocks.

ghost use Rattle.std.specs.Prelude.{◌≡◌, ◌∷◌, [], OnOk, MatchOption};
ghost use Rattle.rh_rules.specs.Above.{group_in};

use rh_rules::OpenBlock;
use rh_words::OutOfMemory;
use std::alloc::Global;
use std::marker::Model;

/// The open blocks. A clause lists them with the innermost first.
#[derive(Drop)]
pub struct Blocks {
    /// The innermost is the last.
    open: Vec<OpenBlock>,
}

impl Model for Blocks {
    ghost use Rattle.std.specs.Prelude.{List, reverse};
    ghost use Rattle.rh_rules.specs.declared.block.OpenBlock.{OpenBlock};

    ghost Value = { List OpenBlock };

    ghost view = { λ b. reverse b.open.items };
}

impl Blocks {
    /// No block. It takes no memory.
    pub fn new(alloc: Global) -> Blocks
        ensures { result ≡ [] }
    {
        Blocks {
            open: Vec::new(alloc),
        }
    }

    /// Opens a block within the others.
    pub fn push(&mut self, block: OpenBlock) -> Result<(), OutOfMemory>
        ensures { OnOk result (self.new ≡ block ∷ self.old) }
    {
        self.open.push(block)?;
        Ok(())
    }

    /// Closes the innermost block, where one is open.
    pub fn pop(&mut self) -> Option<OpenBlock>
        ensures { MatchOption result ((self.old ≡ []) × (self.new ≡ [])) (λ block. self.old ≡ block ∷ self.new) }
    {
        self.open.pop()
    }

    /// The number of the innermost open group.
    pub fn group(&self) -> Option<u32>
        ensures { result ≡ group_in self.now }
    {
        let mut rest = self.open.as_slice();
        while let Some((block, outer)) = rest.split_last() {
            if let OpenBlock::GroupBlock(number) = block {
                return Some(*number);
            }
            rest = outer;
        }
        None
    }
}
