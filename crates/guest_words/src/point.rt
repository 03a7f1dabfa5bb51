ghost use Rattle.std.specs.Prelude.{◌≡◌, IsTrue};
ghost use Rattle.guest_words.specs.Points.{code_in, is_active, is_loose, reference_of, spent_once};

use crate::fault::FaultName;

/// What a rescued call returns.
#[derive(Clone, Copy, Debug, PartialEq, Eq)]
pub enum Ret {
    /// This number in x10.
    Code(u64),
    /// Nothing: x10 stays as it was at the call.
    Void,
}

/// How a point takes part.
#[derive(Clone, Copy, Debug, PartialEq, Eq)]
pub enum Kind {
    /// The other harts stand still while a call is under the point.
    Blocking,
    /// The other harts go on, and what they wrote stays when the call is rescued.
    Loose,
    /// It is never entered.
    Off,
}

/// A rescue point of the rescue file.
#[derive(Clone, Copy, Debug, PartialEq, Eq)]
pub struct Point {
    /// The guest address of the function's first instruction.
    pub entry: u64,
    /// What its calls return for each fault, in the order of `FaultName`.
    pub codes: [Ret; 8],
    pub kind: Kind,
    /// How many rescues are left before no call enters it any more; None: any number.
    pub left: Option<u32>,
}

/// A point, as frames and histories name it.
#[derive(Clone, Copy, Debug, PartialEq, Eq)]
pub struct PointRef {
    pub entry: u64,
}

impl Point {
    /// Whether calls enter the point: it isn't off, and a rescue is left.
    pub fn is_active(&self) -> bool
        ensures value { result ≡ is_active self.now }
    {
        let spent = matches!(self.left, Some(0));
        match self.kind {
            Kind::Blocking | Kind::Loose => !spent,
            Kind::Off => false,
        }
    }

    /// Whether siblings go on while a call is under the point.
    pub fn is_loose(&self) -> bool
        ensures value { result ≡ is_loose self.now }
    {
        matches!(self.kind, Kind::Loose)
    }

    /// The point, as frames name it.
    pub fn reference(&self) -> PointRef
        ensures value { result ≡ reference_of self.now }
    {
        PointRef { entry: self.entry }
    }

    /// What a call of the point returns for a fault.
    pub fn code(&self, name: FaultName) -> Ret
        ensures value { result ≡ code_in self.now name }
    {
        self.codes[name.order()]
    }

    /// Takes one from the rescues that are left, if they are counted and one is.
    pub(crate) fn spend(&mut self)
        ensures value { self.new ≡ spent_once self.old }
    {
        self.left = self.left.map(|left| left.saturating_sub(1));
    }
}
