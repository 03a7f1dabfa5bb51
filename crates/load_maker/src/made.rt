ghost use Rattle.std.specs.Prelude.{◌≡◌, ◌≤◌, IfOk};
ghost use Rattle.load_maker.specs.Accepted.{AreAccepted};
ghost use Rattle.load_maker.specs.File.{load_file};
ghost use Rattle.load_maker.specs.Input.{input_of};
ghost use Rattle.load_maker.specs.Program.{points_file};

use crate::file::load_file;
use crate::input::load_input;
use guest_words::{Bytes, MemoryWant};
use std::alloc::Global;

const POINTS: &str = "version = 1\n[[point]]\nentry = 65752\nreturns = -1\nkind = \"blocking\"\n";

/// A load: a program and its rescue file, which are always the same, and an input.
#[derive(Drop)]
pub struct Made {
    /// The program, an ELF file.
    pub elf: Bytes,
    /// The rescue file.
    pub points: Bytes,
    pub input: Bytes,
}

/// The load of a number.
pub fn make(alloc: Global, number: u64) -> Result<Made, MemoryWant>
    requires least { 1 ≤ number }
    requires most { number ≤ 1000 }
    ensures elf { IfOk result (λ made. made.elf ≡ load_file) }
    ensures points { IfOk result (λ made. made.points ≡ points_file) }
    ensures input { IfOk result (λ made. made.input ≡ input_of number) }

    // Read as any others, the program and the rescue file are accepted.
    ensures accepted { IfOk result (λ made. AreAccepted made.elf made.points) }
{
    Ok(Made {
        elf: Bytes::of(load_file(alloc)?),
        points: Bytes::of(POINTS.as_bytes().to_vec(alloc)?),
        input: Bytes::of(load_input(alloc, number)?),
    })
}
