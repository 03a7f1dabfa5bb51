ghost use Rattle.std.specs.Prelude.{◌≡◌, ◌<◌};
ghost use Rattle.guest_words.specs.Names.{fault_name, order_of};

/// Why an instruction can't be carried out.
#[derive(Clone, Copy, Debug, PartialEq, Eq)]
pub enum FaultName {
    /// A byte of the instruction lacks the right to be executed.
    FetchRights,
    /// The address of an instruction is no multiple of 4.
    FetchMisaligned,
    /// The word is no instruction.
    Illegal,
    /// A byte that is loaded lacks the right to be read.
    LoadRights,
    /// A byte that is stored lacks the right to be written.
    StoreRights,
    /// The address of an atomic access is no multiple of its width.
    AtomicMisaligned,
    /// EBREAK.
    Breakpoint,
    /// A call that waits, under a rescue point.
    BlockedInPoint,
}

impl FaultName {
    /// The name as the report prints it.
    pub fn name(self) -> &'static str
        ensures text { result.now ≡ fault_name self }
    {
        match self {
            FaultName::FetchRights => "fetch-rights",
            FaultName::FetchMisaligned => "fetch-misaligned",
            FaultName::Illegal => "illegal",
            FaultName::LoadRights => "load-rights",
            FaultName::StoreRights => "store-rights",
            FaultName::AtomicMisaligned => "atomic-misaligned",
            FaultName::Breakpoint => "breakpoint",
            FaultName::BlockedInPoint => "blocked-in-point",
        }
    }

    /// The place of its code among the codes of a point: the order of the faults, from 0.
    pub fn order(self) -> usize
        ensures value { result ≡ order_of self }
        ensures within { result < 8 }
    {
        match self {
            FaultName::FetchRights => 0,
            FaultName::FetchMisaligned => 1,
            FaultName::Illegal => 2,
            FaultName::LoadRights => 3,
            FaultName::StoreRights => 4,
            FaultName::AtomicMisaligned => 5,
            FaultName::Breakpoint => 6,
            FaultName::BlockedInPoint => 7,
        }
    }
}

/// A fault, and the address of the instruction that met it.
#[derive(Clone, Copy, Debug, PartialEq, Eq)]
pub struct Fault {
    pub name: FaultName,
    pub pc: u64,
}
