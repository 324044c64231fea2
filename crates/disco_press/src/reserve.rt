//! Memory that a desk gives up when a cancel is refused memory.
ghost use Rattle.std.specs.Prelude.{◌≡◌, IfErr};
ghost use Rattle.disco_values.specs.declared.fault.Fault.TheVariants.{OutOfMemory};

use crate::desk::Desk;
use crate::published_log::Naming;
use disco_values::Fault;
use std::alloc::{AllocError, Global};

/// How many blocks a whole reserve has.
const BLOCKS: usize = 16;

/// How many bytes a block has.
const BLOCK_BYTES: usize = 1_048_576;

/// The value of each byte of a block. The host may only promise memory that is zero, and not give it.
const WRITTEN: u8 = 1;

/// Unused blocks of memory.
#[derive(Drop)]
pub(crate) struct Reserve {
    alloc: Global,
    blocks: Vec<Vec<u8>>,
    /// How many blocks it is to have.
    wanted: usize,
}

/// A block. Each of its bytes was written to, so the host has given the memory.
fn block(alloc: Global) -> Result<Vec<u8>, AllocError> {
    let mut block = Vec::with_capacity(alloc, BLOCK_BYTES)?;
    block.resize(BLOCK_BYTES, WRITTEN)?;
    Ok(block)
}

impl Reserve {
    /// A reserve that wants no block.
    pub(crate) fn none(alloc: Global) -> Reserve {
        Reserve {
            alloc,
            blocks: Vec::new(alloc),
            wanted: 0,
        }
    }

    /// Takes the blocks that are lacking, as far as there is memory.
    fn fill(&mut self) -> Result<(), AllocError> {
        for _ in self.blocks.len()..self.wanted {
            self.blocks.push(block(self.alloc)?)?;
        }
        Ok(())
    }
}

impl<J: Naming> Desk<J> {
    /// Has the desk keep a reserve of 16 MiB of memory, to give up when memory is refused.
    ///
    /// # Errors
    ///
    /// `OutOfMemory` alone. What is lacking is taken the next time that the reserve is taken again.
    pub fn keep_reserve(&mut self) -> Result<(), Fault>
        ensures same { self.new ≡ self.old }
        ensures refused { IfErr result (λ e. e ≡ OutOfMemory) }
    {
        self.reserve.wanted = BLOCKS;
        self.reserve.fill()?;
        Ok(())
    }

    /// Frees the reserve. Answers whether it had a block.
    pub fn give_up_reserve(&mut self) -> bool
        ensures same { self.new ≡ self.old }
    {
        let some = !self.reserve.blocks.is_empty();
        self.reserve.blocks.clear();
        some
    }

    /// Takes what is lacking of the reserve, if the desk is to keep one, as far as there is memory.
    pub fn take_reserve_again(&mut self)
        ensures same { self.new ≡ self.old }
    {
        let _taken = self.reserve.fill();
    }
}
