// Numbers of Linux for RISC-V, 64 bits: calls, error numbers, flags.

/// Call numbers, in a7.
pub const CLOSE: u64 = 57;

pub const READ: u64 = 63;

pub const WRITE: u64 = 64;

pub const EXIT: u64 = 93;

pub const EXIT_GROUP: u64 = 94;

pub const FUTEX: u64 = 98;

pub const SCHED_YIELD: u64 = 124;

pub const GETTID: u64 = 178;

pub const BRK: u64 = 214;

pub const MUNMAP: u64 = 215;

pub const CLONE: u64 = 220;

pub const MMAP: u64 = 222;

/// Error numbers, as calls answer them.
pub const EIO: i64 = -5;

pub const EBADF: i64 = -9;

pub const EAGAIN: i64 = -11;

pub const ENOMEM: i64 = -12;

pub const EFAULT: i64 = -14;

pub const EINVAL: i64 = -22;

pub const ENOSYS: i64 = -38;

/// Operations of futex, and the flag of a futex that one process alone uses.
pub const FUTEX_WAIT: u64 = 0;

pub const FUTEX_WAKE: u64 = 1;

pub const FUTEX_PRIVATE: u64 = 128;

/// Flags of clone.
pub const CLONE_VM: u64 = 0x100;

pub const CLONE_FS: u64 = 0x200;

pub const CLONE_FILES: u64 = 0x400;

pub const CLONE_SIGHAND: u64 = 0x800;

pub const CLONE_THREAD: u64 = 0x1_0000;

pub const CLONE_SYSVSEM: u64 = 0x4_0000;

pub const CLONE_SETTLS: u64 = 0x8_0000;

pub const CLONE_PARENT_SETTID: u64 = 0x10_0000;

pub const CLONE_CHILD_CLEARTID: u64 = 0x20_0000;

/// All flags of clone that are known.
pub const CLONE_KNOWN: u64 = 0x3d_0f00;

/// Rights of mmap.
pub const PROT_READ: u64 = 1;

pub const PROT_WRITE: u64 = 2;

/// MAP_PRIVATE and MAP_ANONYMOUS: memory of the program's own.
pub const MAP_OWN: u64 = 0x22;

/// MAP_NORESERVE and MAP_STACK, which count for nothing.
pub const MAP_HINTS: u64 = 0x2_4000;
