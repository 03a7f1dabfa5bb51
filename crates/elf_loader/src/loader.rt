ghost use Rattle.std.specs.Prelude.{◌≡◌, ◌↔◌, ◌≤◌, ℕ, None, Some, length, map, IfOk, OnOk, IsErrOf};
ghost use Rattle.guest_words.specs.Image.{IsImage, first_fault};
ghost use Rattle.guest_words.specs.declared.elf_fault.ElfFault.{ElfFault};
ghost use Rattle.elf_loader.specs.Segment.{load_of};

use crate::accept::accept;
use crate::fields::u64_at;
use crate::load_fault::LoadFault;
use crate::segment::Segment;
use guest_words::{Bytes, Image, Load, Loads};
use std::alloc::{AllocError, Global};

/// The load of a segment, with its bytes copied.
fn load_of(alloc: Global, segment: &Segment) -> Result<Load, AllocError>
    ensures { IfOk result (λ load. load ≡ load_of segment.now) }
{
    Ok(Load {
        address: segment.address,
        size: segment.size,
        bytes: Bytes::of(Vec::from_slice(alloc, segment.bytes)?),
        rights: segment.rights,
    })
}

/// The loads of the segments, in order.
fn loads_of(alloc: Global, segments: &[Segment]) -> Result<Loads, AllocError>
    ensures { IfOk result (λ loads. loads ≡ map load_of segments.now) }
{
    let mut loads = Vec::with_capacity(alloc, segments.len())?;
    for segment in segments {
        loads.push(load_of(alloc, segment)?)?;
    }
    Ok(Loads::of(loads))
}

/// The image of a program file, or the first rule that it breaks with the offset in bytes. The
/// rules are those of the ELF format (System V gABI) for RISC-V, and this project's limits; see
/// [`ElfFault`](guest_words::ElfFault) for them in their order. They are tried first, and take no
/// memory.
pub fn load(alloc: Global, bytes: &[u8]) -> Result<Image, LoadFault>
    ensures ok { IfOk result (IsImage bytes.now) }
    ensures kept { OnOk result (first_fault bytes.now ≡ None) }

    // A rule is named exactly where it is the first one that is broken.
    ensures cause { (fault : ElfFault) (offset : ℕ)
        → IsErrOf result (LoadFault.Elf fault offset)
        ↔ (first_fault bytes.now ≡ Some (fault, offset)) }
    ensures memory { IsErrOf result LoadFault.Memory → first_fault bytes.now ≡ None }
{
    match accept(bytes) {
        Ok(segments) => {
            let loads = loads_of(alloc, segments.as_slice())?;
            let entry = u64_at(bytes, 24);
            Ok(Image { loads, entry })
        }
        Err((fault, offset)) => Err(LoadFault::Elf { fault, offset }),
    }
}
