ghost use Rattle.std.specs.Prelude.{◌≡◌, ◌/◌, ◌&&◌};
ghost use Rattle.std.specs.List.{list_any};
ghost use Rattle.guest_words.specs.Image.{pages_of, contains, clashes};
ghost use Rattle.elf_loader.specs.Segment.{load_of};

use crate::segment::Segment;
use guest_words::limits::PAGE;

/// Whether one of the segments has a byte in the page of this number.
pub fn any_has_page(segments: &[Segment], page: u64) -> bool
    ensures { result ≡ list_any (λ s. contains (pages_of (load_of s)) page) segments.now }
{
    segments.iter().any(|s| s.has_page(page))
}

/// Whether one of the segments clashes with a later one.
pub fn any_clashes(segments: &[Segment], later: &Segment) -> bool
    ensures { result ≡ list_any (λ s. clashes (load_of s) (load_of later.now)) segments.now }
{
    segments.iter().any(|s| s.clashes(later))
}

/// Whether the page of an address can be executed.
pub fn is_executable(segments: &[Segment], address: u64) -> bool
    ensures { result ≡ list_any
        (λ s. contains (pages_of (load_of s)) (address / PAGE) && s.rights.exec)
        segments.now }
{
    segments
        .iter()
        .any(|s| s.has_page(address / PAGE) && s.rights.exec)
}
