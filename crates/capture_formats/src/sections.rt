ghost use Rattle.std.specs.Prelude.{◌≡◌, ◌≢◌, None, List, [], length, IfOk, OnOk, OnErr};
ghost use Rattle.capture_formats.specs.Sections.{block_in, block_of, blocks_after, scope_after, scope_with, step_of, step_over, IsReady, IsStepWithin, Stands, WhenTaken, WhenUntaken};
ghost use Rattle.capture_formats.specs.declared.block.Block.{Block};

use crate::block::{Block, BlockRead, read_block};
use crate::interface::Interface;
use crate::step::BlockStep;
use pk_base::NoMemory;
use std::alloc::Global;
use std::marker::Model;

/// How far the blocks of a pcapng file are read: the byte order of the current section, and its interfaces, by number.
#[derive(Drop)]
pub struct Sections {
    order: Option<bool>,
    interfaces: Vec<Interface>,
}

impl Model for Sections {
    ghost use Rattle.capture_formats.specs.Sections.{Scope};

    ghost Value = { Scope };

    ghost view = { λ s. record { order = s.order; interfaces = s.interfaces.items } };
}

impl Sections {
    /// Before the first block of a file.
    pub fn new(alloc: Global) -> Sections
        ensures stands { Stands result [] }
    {
        Sections {
            order: None,
            interfaces: Vec::new(alloc),
        }
    }

    /// Reads the block that begins with the first of the bytes held. Where no block was taken before, they begin with a
    /// section's type, `0A 0D 0D 0A`. After an error, `Need` or `Bad` the sections are as before.
    pub fn next_block(&mut self, rest: &[u8]) -> Result<BlockStep, NoMemory>
        requires { IsReady self.old rest.now }
        ensures step { (before : List Block) → Stands self.old before
            → IfOk result (λ step. step ≡ step_of (block_of before rest.now)) }
        ensures stands { (before : List Block) → Stands self.old before
            → OnOk result (Stands self.new (blocks_after (block_of before rest.now) before)) }
        ensures scope_step { IfOk result (λ step. step ≡ step_of (block_in self.old rest.now)) }
        ensures scope { OnOk result (self.new ≡ scope_after (block_in self.old rest.now) self.old) }
        ensures untaken { IfOk result (λ step. WhenUntaken step (self.new ≡ self.old)) }
        ensures begun { IfOk result (λ step. WhenTaken step (self.new.order ≢ None)) }
        ensures kept { OnErr result (self.new ≡ self.old) }
        ensures within { IfOk result (λ step. IsStepWithin step (length rest.now)) }
    {
        match read_block(self.order, self.interfaces.as_slice(), rest) {
            BlockRead::Need(n) => Ok(BlockStep::Need(n)),
            BlockRead::Bad(reason) => Ok(BlockStep::Bad(reason)),
            BlockRead::Whole(block, end) => {
                self.take(&block)?;
                Ok(step_of_block(&block, end))
            }
        }
    }

    /// Takes a block into account. After an error the sections are as before.
    fn take(&mut self, block: &Block) -> Result<(), NoMemory>
        ensures scope { OnOk result (self.new ≡ scope_with self.old block.now) }
        ensures kept { OnErr result (self.new ≡ self.old) }
    {
        match block {
            Block::Section(little) => {
                self.order = Some(*little);
                self.interfaces.clear();
            }
            Block::Interface(interface) => self.interfaces.push(*interface)?,
            Block::Packet(_) | Block::Other => {}
        }
        Ok(())
    }
}

fn step_of_block(block: &Block, end: usize) -> BlockStep
    ensures { result ≡ step_over block.now end }
{
    match block {
        Block::Packet(found) => BlockStep::Item(*found),
        _ => BlockStep::Skipped(end),
    }
}
