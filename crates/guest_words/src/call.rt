use crate::image::Rights;

/// A call of a hart, with the whole argument registers that it reads.
#[derive(Clone, Copy, Debug, PartialEq, Eq)]
pub enum Request {
    Read {
        fd: u64,
        place: u64,
        size: u64,
    },
    Write {
        fd: u64,
        place: u64,
        size: u64,
    },
    Close {
        fd: u64,
    },
    Exit {
        code: u64,
    },
    ExitGroup {
        code: u64,
    },
    Wait {
        place: u64,
        value: u64,
        timeout: u64,
    },
    Wake {
        place: u64,
        value: u64,
    },
    Clone {
        flags: u64,
        stack: u64,
        parent: u64,
        tls: u64,
        child: u64,
    },
    Break {
        to: u64,
    },
    Map {
        length: u64,
        prot: u64,
        flags: u64,
    },
    Unmap {
        place: u64,
        length: u64,
    },
    Yield,
    Tid,
    /// A call that isn't served.
    Unknown,
}

/// What the answer to a call depends on beside its arguments.
#[derive(Clone, Copy, Debug, PartialEq, Eq)]
pub struct Facts {
    /// Whether another hart is ready or waiting.
    pub other_live: bool,
    /// Whether the descriptor can be used in the direction of the call.
    pub usable: bool,
    /// Whether the range, after the cut to 65,536 bytes, can be read; for a wait it is the 4 bytes
    /// at its place.
    pub readable: bool,
    /// Whether that range can be written.
    pub writable: bool,
    /// The 4 bytes at the place of a wait, or 0 where they can't be read.
    pub word: u32,
    /// The least slot from 1 on that a new hart can take.
    pub free_slot: Option<u8>,
    pub next_tid: u32,
    pub tid: u32,
    /// Whether the hart has a frame open.
    pub frames: bool,
    /// Where the heap begins.
    pub low: u64,
    /// The break: the end of the heap.
    pub brk: u64,
    /// How many pages are mapped.
    pub mapped: u64,
    /// Where the pages that a map asks for fit; None for other calls too.
    pub place: Option<u64>,
}

/// What a call does.
#[derive(Clone, Copy, Debug, PartialEq, Eq)]
pub enum Reply {
    /// It answers this value, or an error number with a minus sign.
    Value(i64),
    /// It goes to the device, for so many bytes.
    Port {
        asked: u32,
    },
    /// The hart exits, and others go on.
    Gone,
    /// The run ends with this code.
    End {
        code: u8,
    },
    /// The hart waits.
    Queue,
    /// At most so many waiters are woken.
    Rouse {
        most: u32,
    },
    /// A new hart begins in this slot.
    Child {
        slot: u8,
    },
    /// The break moves.
    Break {
        to: u64,
    },
    /// So many pages of zeros come, with these rights.
    Map {
        place: u64,
        count: u64,
        rights: Rights,
    },
    /// So many pages go.
    Unmap {
        place: u64,
        count: u64,
    },
    /// The hart would wait under a rescue point, which is a fault.
    Blocked,
}
