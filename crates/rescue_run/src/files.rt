use guest_words::Name;

/// The files that a command names.
#[derive(Drop)]
pub struct Files {
    pub program: Name,
    /// The rescue file.
    pub points: Option<Name>,
}
