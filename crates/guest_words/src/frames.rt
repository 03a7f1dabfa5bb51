ghost use Rattle.std.specs.Prelude.{◌≡◌, [], ◌∷◌, ◌++◌, take, IfOk, OnOk, OnErr};

use crate::hart::Frame;
use crate::memory_want::MemoryWant;
use std::alloc::Global;
use std::marker::Model;

/// The open frames of a hart, the innermost last.
#[derive(Drop)]
pub struct Frames {
    items: Vec<Frame>,
}

impl Model for Frames {
    ghost use Rattle.std.specs.Prelude.{List};
    ghost use Rattle.guest_words.specs.declared.hart.Frame.{Frame};

    ghost Value = { List Frame };

    ghost view = { λ f. f.items.items };
}

impl Frames {
    /// The frames of the `Vec`, which is kept as it is.
    pub fn of(items: Vec<Frame>) -> Frames
        ensures list { result ≡ items.items }
    {
        Frames { items }
    }

    /// The frames, the innermost last.
    pub fn items(&self) -> &[Frame]
        ensures list { result.now ≡ self.now }
    {
        self.items.as_slice()
    }

    /// No frames. Takes no memory.
    pub fn new(alloc: Global) -> Frames
        ensures none { result ≡ [] }
    {
        Frames {
            items: Vec::new(alloc),
        }
    }

    /// Puts a frame inside all others.
    pub fn push(&mut self, frame: Frame) -> Result<(), MemoryWant>
        ensures ok { OnOk result (self.new ≡ self.old ++ frame ∷ []) }
        ensures err { OnErr result (self.new ≡ self.old) }
    {
        self.items.push(frame)?;
        Ok(())
    }

    /// Keeps so many of the outermost frames. Takes no memory.
    pub fn truncate(&mut self, count: usize)
        ensures value { self.new ≡ take count self.old }
    {
        self.items.truncate(count);
    }

    /// An equal list.
    pub fn copy(&self, alloc: Global) -> Result<Frames, MemoryWant>
        ensures ok { IfOk result (λ frames. frames ≡ self.now) }
    {
        Ok(Frames {
            items: self.items.as_slice().to_vec(alloc)?,
        })
    }
}
