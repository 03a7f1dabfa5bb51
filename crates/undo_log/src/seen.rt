ghost use Rattle.std.specs.Prelude.{◌≡◌, List, [], ◌∷◌, IfOk};
ghost use Rattle.undo_log.specs.Thin.{is_covered};
ghost use Rattle.undo_log.specs.Seen.{Knows};

use crate::note::Note;
use guest_words::MemoryWant;
use std::alloc::Global;
use std::collections::HashSet;

/// Where bytes stand.
#[derive(PartialEq, Eq, Hash, Drop)]
pub struct Place {
    pub address: u64,
    pub size: u64,
}

/// The places of the notes of bytes that came since the last other note.
#[derive(Drop)]
pub struct Seen {
    pub places: HashSet<Place>,
}

impl Seen {
    /// No place. Takes no memory.
    pub fn new(alloc: Global) -> Seen
        ensures none { Knows result [] }
    {
        Seen {
            places: HashSet::new(alloc),
        }
    }

    /// Whether an earlier note covers one, which is seen now.
    pub fn covers(&mut self, alloc: Global, note: &Note) -> Result<bool, MemoryWant>
        ensures value { (before : List Note) → Knows self.old before
            → IfOk result (λ is. (is ≡ is_covered before note.now) × Knows self.new (note.now ∷ before)) }
    {
        match note {
            Note::Bytes { address, width, .. } => {
                let is_new = self.places.insert(Place {
                    address: *address,
                    size: width.bytes(),
                })?;
                Ok(!is_new)
            }
            _ => {
                self.places = HashSet::new(alloc);
                Ok(false)
            }
        }
    }
}
