ghost use Rattle.std.specs.Prelude.{◌≡◌, IfOk, Ok};
ghost use Rattle.guest_words.specs.Image.{IsLoadList};
ghost use Rattle.history_file.specs.Spelled.{IsHead};
ghost use Rattle.history_file.specs.Starts.{start_by};
ghost use Rattle.rescue_audit.specs.Verdict.{first_no, verdict_of, IsAsSaid};

use crate::ending::has_end;
use crate::files::AuditFiles;
use crate::matching::first_unmatched;
use crate::no::{No, Verdict};
use crate::replay::first_illegal;
use guest_words::{Image, MemoryWant, Points};
use history_file::Head;
use plain_machine::Plain;
use run_history::{Entry, History};
use std::alloc::Global;

/// The first rule that entries break, which begin in the state that a head makes of an image and
/// points.
fn first_no(
    alloc: Global,
    image: &Image,
    points: &Points,
    head: &Head,
    entries: &[Entry],
    files: &AuditFiles,
) -> Result<Option<No>, MemoryWant>
    requires image { IsLoadList image.now.loads }
    requires head { IsHead head.now }
    ensures ok { IfOk result (λ found. found
        ≡ first_no (start_by image.now points.now head.now) head.now.ports entries.now files.now) }
{
    let named = files.ports.items().len() as u64;
    if named != head.ports {
        return Ok(Some(No::Ports {
            named,
            kept: head.ports,
        }));
    }
    let start = Plain::start(alloc, image, points, head.harts, head.ports, head.budget)?;
    if let Some(index) = first_illegal(alloc, start, entries)? {
        return Ok(Some(No::Entry { index }));
    }
    if !has_end(entries) {
        return Ok(Some(No::Unended));
    }
    match first_unmatched(files, entries)? {
        Some(number) => Ok(Some(No::Device { number })),
        None => Ok(None),
    }
}

/// What an audit of a head and a history says, for a program's image, points and the files of the
/// devices. Each entry is made once, and the history is walked once for each file.
pub fn audit(
    alloc: Global,
    image: &Image,
    points: &Points,
    head: &Head,
    history: &History,
    files: &AuditFiles,
) -> Result<Verdict, MemoryWant>
    requires image { IsLoadList image.now.loads }
    requires head { IsHead head.now }
    ensures ok { IfOk result (λ verdict. verdict
        ≡ verdict_of image.now points.now head.now history.now.entries files.now) }

    // Yes is said of each history that is as it says, and of no other.
    ensures only { result ≡ Ok Verdict.Yes
        → IsAsSaid image.now points.now head.now history.now.entries files.now }
    ensures none { IsAsSaid image.now points.now head.now history.now.entries files.now
        → IfOk result (λ verdict. verdict ≡ Verdict.Yes) }
{
    match first_no(alloc, image, points, head, history.items(), files)? {
        Some(no) => Ok(Verdict::No(no)),
        None => Ok(Verdict::Yes),
    }
}
