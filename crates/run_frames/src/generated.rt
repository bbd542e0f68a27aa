// A capture that a number stands for.
ghost use Rattle.std.specs.Prelude.{◌≡◌, ◌≤◌, IfOk};
ghost use Rattle.capture_write.specs.Made.{made};

use capture_write::make;
use pk_base::{NoMemory, Octets};
use std::alloc::Global;
use std::marker::Model;

/// The capture that a number stands for, of so many frames: 1 to 200,000.
#[derive(Drop)]
pub struct Generated {
    start: u64,
    frames: u32,
}

impl Model for Generated {
    ghost use Rattle.run_frames.specs.Generated.{GeneratedShown, IsGenerated};

    ghost Value = { GeneratedShown };

    ghost view = { λ g. record { start = g.start; frames = g.frames } };

    ghost invariant = { λ g. IsGenerated (record { start = g.start; frames = g.frames }) };
}

impl Generated {
    pub fn new(start: u64, frames: u32) -> Generated
        requires some { 1 ≤ frames }
        requires most { frames ≤ 200_000 }
        ensures { result ≡ record { start = start; frames = frames } }
    {
        Generated { start, frames }
    }

    /// The bytes of the capture file.
    pub fn file(&self, alloc: Global) -> Result<Octets, NoMemory>
        ensures { IfOk result (λ octets. octets ≡ made self.now.start self.now.frames) }
    {
        make(alloc, self.start, self.frames)
    }
}
