/// Bytes of a page.
pub const PAGE: u64 = 4_096;

/// Greatest length of a program file, in bytes.
pub const PROGRAM_BYTES: u64 = 16_777_216;

/// Greatest length of a rescue file, in bytes.
pub const POINTS_BYTES: u64 = 1_048_576;

/// Greatest number of program headers.
pub const PROGRAM_HEADERS: u64 = 64;

/// Greatest number of pages of all loads, 64 MiB.
pub const LOAD_PAGES: u64 = 16_384;

/// Greatest number of points of a rescue file.
pub const POINTS: usize = 256;

/// Greatest number of open frames of a hart.
pub const FRAMES: usize = 16;

/// Greatest number of harts.
pub const HARTS: u8 = 64;

/// Greatest number of rescues that a point can be limited to.
pub const RESCUES: u32 = 1_000_000;

/// Greatest budget, in steps.
pub const BUDGET: u64 = 20_000_000;

/// Greatest number of bytes of one read or write.
pub const TRANSFER: u64 = 65_536;

/// The run ends after the first record past so many bytes of all records.
pub const RECORD_BYTES: u64 = 268_435_456;

/// Loads lie from here on.
pub const FIRST_ADDRESS: u64 = 4_096;

/// Loads lie below this address.
pub const LOADS_END: u64 = 0x3f_0000_0000;

/// The stack of the first hart, 1 MiB with read and write: its first address.
pub const STACK_FROM: u64 = 0x3f_fff0_0000;

/// The first address past the stack.
pub const STACK_END: u64 = 0x40_0000_0000;

/// The stack pointer of the first hart.
pub const STACK_POINTER: u64 = 0x3f_ffff_ffc0;

/// The heap reaches at most so many bytes above the low break, 64 MiB.
pub const HEAP_BYTES: u64 = 67_108_864;

/// The first address of the area of mapped pages.
pub const MAP_FROM: u64 = 0x3f_8000_0000;

/// The first address past the area of mapped pages.
pub const MAP_END: u64 = 0x3f_c000_0000;

/// Greatest number of mapped pages, 64 MiB.
pub const MAP_PAGES: u64 = 16_384;
