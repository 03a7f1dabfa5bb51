ghost use Rattle.std.specs.Prelude.{◌≡◌, ◌++◌, min, length, take};

use guest_words::Bytes;
use std::marker::Model;

/// Bytes that are taken from the front. Contracts see those that are left.
#[derive(Drop)]
pub struct Unread {
    bytes: Vec<u8>,
    next: usize,
}

impl Model for Unread {
    ghost use Rattle.std.specs.Prelude.{List, ℕ, ◌≤◌, drop, length};

    ghost Value = { List ℕ };

    ghost view = { λ u. drop u.next u.bytes.items };

    ghost invariant = { λ u. u.next ≤ length u.bytes.items };
}

impl Unread {
    pub fn of(bytes: Bytes) -> Unread
        ensures all { result ≡ bytes }
    {
        Unread {
            bytes: bytes.into_vec(),
            next: 0,
        }
    }

    /// The bytes that are left.
    pub fn rest(&self) -> &[u8]
        ensures value { result.now ≡ self.now }
    {
        &self.bytes[self.next..]
    }

    /// Takes the next bytes into the first places of `into`, as far as both go.
    pub fn take(&mut self, into: &mut [u8]) -> usize
        ensures count { result ≡ min (length into.new) (length self.old) }
        ensures taken { self.old ≡ take result into.new ++ self.new }
    {
        let rest = self.rest();
        let count = into.len().min(rest.len());
        into[..count].copy_from_slice(&rest[..count]);
        self.next += count;
        count
    }
}
