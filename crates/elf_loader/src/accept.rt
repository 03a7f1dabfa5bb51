ghost use Rattle.std.specs.Prelude.{◌≡◌, ◌≤◌, length, map, IfOk};
ghost use Rattle.guest_words.specs.Rules.{first_broken};
ghost use Rattle.guest_words.specs.Image.{loads_of, entry_rules, first_fault};
ghost use Rattle.elf_loader.specs.Checks.{Tells};
ghost use Rattle.elf_loader.specs.Segment.{load_of};

use crate::fields::u64_at;
use crate::header::check_header;
use crate::rules::{Broken, refuse};
use crate::segment::Segment;
use crate::segment_list::is_executable;
use crate::table::{Segments, check_table};
use guest_words::ElfFault;

/// Tries the rule on the entry.
fn check_entry(file: &[u8], segments: &[Segment]) -> Result<(), Broken<ElfFault>>
    requires long { 64 ≤ length file.now }
    requires loads { map load_of segments.now ≡ loads_of file.now }
    ensures { Tells result (first_broken (entry_rules file.now)) }
{
    let entry = u64_at(file, 24);
    let executable = is_executable(segments, entry);
    refuse(entry % 4 != 0 || !executable, ElfFault::Entry, 24)
}

/// Tries all rules, in their order. Answers the loads of a file that keeps them.
pub fn accept(file: &[u8]) -> Result<Segments<'_>, Broken<ElfFault>>
    ensures rules { Tells result (first_fault file.now) }
    ensures loads { IfOk result (λ s. map load_of s.items ≡ loads_of file.now) }
    ensures long { IfOk result (λ _. 64 ≤ length file.now) }
{
    check_header(file)?;
    let segments = check_table(file)?;
    check_entry(file, segments.as_slice())?;
    Ok(segments)
}
