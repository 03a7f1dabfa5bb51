use guest_words::{Bytes, Name};

/// A file of a shelf in memory.
#[derive(Drop)]
pub struct ShelfFile {
    pub name: Name,
    pub bytes: Bytes,
}
