ghost use Rattle.std.specs.Prelude.{◌≡◌, ◌+◌, ◌<◌, ◌≤◌, List, ℕ, [], ◌∷◌, ◌++◌, length, map, IfOk};
ghost use Rattle.guest_words.specs.Rules.{first_broken};
ghost use Rattle.guest_words.specs.Image.{load_at, load_rules, segment_rules, page_count};
ghost use Rattle.guest_words.specs.declared.limits.TheConstants.{LOAD_PAGES};
ghost use Rattle.elf_loader.specs.Checks.{Tells};
ghost use Rattle.elf_loader.specs.ProgramHeader.{StandsAt};
ghost use Rattle.elf_loader.specs.Segment.{load_of};

use crate::program_header::ProgramHeader;
use crate::rules::{Broken, refuse};
use crate::segment::Segment;
use crate::segment_list::any_clashes;
use guest_words::ElfFault;
use guest_words::limits::{FIRST_ADDRESS, LOAD_PAGES, LOADS_END};

/// Tries the rules on a program header of any type.
pub fn check_segment(file: &[u8], place: usize) -> Result<ProgramHeader, Broken<ElfFault>>
    requires { place + 56 ≤ length file.now }
    ensures rules { Tells result (first_broken (segment_rules file.now place)) }
    ensures header { IfOk result (StandsAt file.now place) }
{
    let header = ProgramHeader::at(file, place);
    let at = place as u64;
    refuse(header.kind == 2 || header.kind == 3, ElfFault::Dynamic, at)?;
    let too_many = header.kind == 1 && header.size < header.file_size;
    refuse(too_many, ElfFault::SegmentSizes, at + 32)?;
    Ok(header)
}

/// Tries the rules on a load that has bytes in memory, after the earlier loads with their number
/// of pages. Answers it with the number of pages of all.
pub fn check_load<'a>(
    file: &'a [u8],
    place: u64,
    header: &ProgramHeader,
    earlier: &[Segment],
    pages: u64,
) -> Result<(Segment<'a>, u64), Broken<ElfFault>>
    requires room { place + 56 ≤ length file.now }
    requires header { StandsAt file.now place header.now }
    requires filled { 0 < header.now.size }
    requires counted { pages ≡ page_count (map load_of earlier.now) }
    requires within { pages ≤ LOAD_PAGES }
    ensures rules { Tells result
        (first_broken (load_rules file.now (map load_of earlier.now) place)) }
    ensures load { IfOk result (λ found. load_of found.0 ≡ load_at file.now place) }
    ensures counted { IfOk result (λ found.
        found.1 ≡ page_count (map load_of earlier.now ++ load_at file.now place ∷ [])) }
    ensures within { IfOk result (λ found. found.1 ≤ LOAD_PAGES) }
{
    let bytes_end = u128::from(header.offset) + u128::from(header.file_size);
    let outside = header.file_size != 0 && bytes_end > file.len() as u128;
    refuse(outside, ElfFault::SegmentOutside, place + 8)?;
    let end = u128::from(header.address) + u128::from(header.size);
    let misplaced = header.address < FIRST_ADDRESS || end > u128::from(LOADS_END);
    refuse(misplaced, ElfFault::SegmentPlace, place + 16)?;
    let both = header.rights.write && header.rights.exec;
    refuse(both, ElfFault::WriteExecute, place + 4)?;
    let segment = header.segment(file);
    refuse(
        any_clashes(earlier, &segment),
        ElfFault::PageClash,
        place + 16,
    )?;
    let all_pages = pages + segment.new_pages(earlier);
    refuse(all_pages > LOAD_PAGES, ElfFault::Large, place + 40)?;
    Ok((segment, all_pages))
}
