/// Why a list isn't put as a whole.
#[derive(Clone, Copy, Debug, PartialEq, Eq)]
pub enum ListFault {
    /// The sink failed.
    Lost,
    /// Memory was wanting.
    Memory,
}
