/// Harts where `--harts` isn't given.
pub const DEFAULT_HARTS: u8 = 8;

/// Steps where `--budget` isn't given.
pub const DEFAULT_BUDGET: u64 = 5_000_000;

/// The seed where `--seed` isn't given.
pub const DEFAULT_SEED: u64 = 0;

/// What a call that is taken back returns where `--returns` isn't given.
pub const DEFAULT_RETURNS: i64 = -1;

/// Greatest number of a load.
pub const LOADS: u64 = 1_000;
