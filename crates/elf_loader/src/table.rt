ghost use Rattle.std.specs.Prelude.{◌≡◌, ◌+◌, ◌*◌, ◌<◌, ◌≤◌, [], ◌∷◌, ◌++◌, length, map, OnOk, IfOk, if◌then◌else◌};
ghost use Rattle.arrayvec.specs.ArrayVec.{array_vec_len};
ghost use Rattle.guest_words.specs.Rules.{first_broken};
ghost use Rattle.guest_words.specs.ElfFields.{e_phoff, e_phnum};
ghost use Rattle.guest_words.specs.Image.{is_load, load_at, loads_of, rules_at, table_rules, page_count};
ghost use Rattle.guest_words.specs.declared.limits.TheConstants.{LOAD_PAGES};
ghost use Rattle.elf_loader.specs.Checks.{Tells};
ghost use Rattle.elf_loader.specs.Segment.{load_of};

use crate::check::{check_load, check_segment};
use crate::fields::{u16_at, u64_at};
use crate::rules::Broken;
use crate::segment::Segment;
use arrayvec::ArrayVec;
use guest_words::ElfFault;

/// The loads of a file, of which there are at most 64.
pub type Segments<'a> = ArrayVec<Segment<'a>, 64>;

/// Tries the rules on one program header, and adds its load, if it is one. Takes and answers the
/// number of pages of all loads so far.
fn add_header<'a>(
    file: &'a [u8],
    place: usize,
    segments: &mut Segments<'a>,
    pages: u64,
) -> Result<u64, Broken<ElfFault>>
    requires room { place + 56 ≤ length file.now }
    requires free { array_vec_len segments.old < 64 }
    requires counted { pages ≡ page_count (map load_of segments.old.items) }
    requires within { pages ≤ LOAD_PAGES }
    ensures rules { Tells result
        (first_broken (rules_at file.now (map load_of segments.old.items) place)) }
    ensures loads { OnOk result (map load_of segments.new.items ≡ map load_of segments.old.items
        ++ (if is_load file.now place then load_at file.now place ∷ [] else [])) }
    ensures counted { IfOk result (λ count. count ≡ page_count (map load_of segments.new.items)) }
    ensures within { IfOk result (λ count. count ≤ LOAD_PAGES) }
    ensures longer { array_vec_len segments.new ≤ array_vec_len segments.old + 1 }
{
    let header = check_segment(file, place)?;
    if header.kind != 1 || header.size == 0 {
        return Ok(pages);
    }
    let (segment, pages) = check_load(file, place as u64, &header, segments.as_slice(), pages)?;
    segments.push(segment);
    Ok(pages)
}

/// Tries the rules on the program headers, in their order.
pub fn check_table(file: &[u8]) -> Result<Segments<'_>, Broken<ElfFault>>
    requires long { 64 ≤ length file.now }
    requires few { e_phnum file.now ≤ 64 }
    requires inside { e_phoff file.now + 56 * e_phnum file.now ≤ length file.now }
    ensures rules { Tells result (first_broken (table_rules file.now (e_phnum file.now))) }
    ensures loads { IfOk result (λ s. map load_of s.items ≡ loads_of file.now) }
{
    let first = u64_at(file, 32) as usize;
    let mut segments = ArrayVec::new();
    let mut pages = 0;
    for k in 0..u16_at(file, 56) as usize {
        pages = add_header(file, first + 56 * k, &mut segments, pages)?;
    }
    Ok(segments)
}
