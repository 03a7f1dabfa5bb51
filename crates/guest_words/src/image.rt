ghost use Rattle.std.specs.Prelude.{◌≡◌};

use crate::bytes::Bytes;
use std::marker::Model;

/// What a program may do with the bytes of a page.
#[derive(Clone, Copy, Debug, PartialEq, Eq)]
pub struct Rights {
    pub read: bool,
    pub write: bool,
    pub exec: bool,
}

/// One byte of memory, with the rights of its page.
#[derive(Clone, Copy, Debug, PartialEq, Eq)]
pub struct Cell {
    pub byte: u8,
    pub rights: Rights,
}

/// A page of memory that is kept apart from it.
#[derive(Drop)]
pub struct Page {
    /// The guest address of its first byte, a multiple of 4,096.
    pub from: u64,
    pub rights: Rights,
    /// Its 4,096 bytes.
    pub bytes: Bytes,
}

/// A loadable segment of a file.
#[derive(Drop)]
pub struct Load {
    /// The guest address of its first byte.
    pub address: u64,
    /// How many bytes of memory it has.
    pub size: u64,
    /// Its first bytes; the others are zero.
    pub bytes: Bytes,
    pub rights: Rights,
}

/// The loads of an image, in the order of the file's headers.
#[derive(Drop)]
pub struct Loads {
    items: Vec<Load>,
}

impl Model for Loads {
    ghost use Rattle.std.specs.Prelude.{List};
    ghost use Rattle.guest_words.specs.declared.image.Load.{Load};

    ghost Value = { List Load };

    ghost view = { λ l. l.items.items };
}

impl Loads {
    /// The loads of the `Vec`, which is kept as it is.
    pub fn of(items: Vec<Load>) -> Loads
        ensures list { result ≡ items.items }
    {
        Loads { items }
    }

    /// The loads, in order.
    pub fn items(&self) -> &[Load]
        ensures list { result.now ≡ self.now }
    {
        self.items.as_slice()
    }
}

/// What a program file puts into memory, and where it begins.
#[derive(Drop)]
pub struct Image {
    pub loads: Loads,
    /// The guest address of the first instruction.
    pub entry: u64,
}

/// A range of guest addresses, as an executable load.
#[derive(Clone, Copy, Debug, PartialEq, Eq)]
pub struct Span {
    pub from: u64,
    /// How many bytes it has.
    pub size: u64,
}
