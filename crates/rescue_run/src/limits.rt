/// Greatest length of a history file, in bytes.
pub const HISTORY_BYTES: u64 = 2_147_483_648;

/// Greatest length of a file of a device, in bytes.
pub const DEVICE_BYTES: u64 = 536_870_912;
