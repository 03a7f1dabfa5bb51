ghost use Rattle.std.specs.Prelude.{IfOk};
ghost use Rattle.guest_words.specs.Image.{IsLoadList};

use crate::image::TEXT;
use elf_loader::load;
use elf_symbols::functions;
use guest_words::limits::{BUDGET, HARTS};
use guest_words::{Image, Points, Span};
use plain_machine::Plain;
use rescue_config::read_points;
use run_history::Entry;
use std::alloc::{AllocError, Global};

/// How a replay starts: with the points of a rescue file, of which an empty one names none, and
/// with so many harts, ports and steps.
#[derive(Clone, Copy)]
pub struct ReplayStart<'a> {
    pub points: &'a str,
    pub harts: u8,
    pub ports: u64,
    pub budget: u64,
}

/// Whether the entries are a run of the file from its start, entry by entry. An Err is want of
/// memory.
pub fn replays(
    alloc: Global,
    file: &[u8],
    start: ReplayStart,
    entries: &[Entry],
) -> Result<bool, AllocError> {
    if start.harts == 0 || start.harts > HARTS || start.budget > BUDGET {
        return Ok(false);
    }
    let image = loaded(alloc, file)?;
    let points = named(alloc, file, start.points)?;
    match Plain::start(
        alloc,
        &image,
        &points,
        start.harts,
        start.ports,
        start.budget,
    ) {
        Ok(state) => all_checked(alloc, state, entries),
        Err(_) => Err(AllocError),
    }
}

/// The image of a file. An Err is want of memory, or a file that is refused.
pub fn loaded(alloc: Global, file: &[u8]) -> Result<Image, AllocError>
    ensures loads { IfOk result (λ image. IsLoadList image.loads) }
{
    match load(alloc, file) {
        Ok(image) => Ok(image),
        Err(_) => Err(AllocError),
    }
}

/// The points of a rescue file for a file. An Err is want of memory, or a file that is refused.
pub fn named(alloc: Global, file: &[u8], points: &str) -> Result<Points, AllocError> {
    match load(alloc, file) {
        Ok(_) => {
            let Ok(symbols) = functions(file) else {
                return Err(AllocError);
            };
            let text = [Span {
                from: TEXT,
                size: 4096,
            }];
            read_points(alloc, points.as_bytes(), &symbols, &text).map_err(|_| AllocError)
        }
        Err(_) => Err(AllocError),
    }
}

fn all_checked(alloc: Global, start: Plain, entries: &[Entry]) -> Result<bool, AllocError> {
    let mut state = start;
    for entry in entries {
        match state.checked(alloc, entry) {
            Ok(Some(next)) => state = next,
            Ok(None) => return Ok(false),
            Err(_) => return Err(AllocError),
        }
    }
    Ok(true)
}
