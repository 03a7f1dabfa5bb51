use crate::listing::Listing;
use crate::start::{Loaded, Start};
use guest_words::Bytes;
use rescue_audit::AuditFiles;
use trial_runs::Subject;

/// The load of a number, which runs on devices of its own.
#[derive(Drop)]
pub struct LoadTask {
    pub number: u64,
    pub input: Bytes,
    pub start: Start,
}

/// A history file, and what it is held against.
#[derive(Drop)]
pub struct AuditTask {
    pub loaded: Loaded,
    pub history: Bytes,
    pub files: AuditFiles,
}

/// A program without points and its input, and what the points return that are tried on it.
#[derive(Drop)]
pub struct TryTask {
    pub listing: Listing,
    pub subject: Subject,
    pub returns: i64,
}

/// What a command asks for that nothing refuses.
#[derive(Drop)]
pub enum Task {
    /// To run a program on the devices that are handed in.
    Run(Start),
    /// To list the symbols of a program.
    List(Listing),
    /// To run a load, and to put its summary.
    Load(LoadTask),
    /// To audit a history, and to put what that says.
    Audit(AuditTask),
    /// To try points on a program, and to put what each comes to.
    Try(TryTask),
}
