ghost use Rattle.std.specs.Prelude.{◌≡◌};
ghost use Rattle.rescue_config.specs.declared.points_fault.PointsFault.TheVariants.{Memory};

use crate::point_fault::PointFault;
use std::alloc::AllocError;
use thiserror::Error;

/// Why a rescue file gives no points.
#[derive(Clone, Copy, Debug, PartialEq, Eq, Error)]
pub enum PointsFault {
    /// The first rule that it breaks, and the number of the point that breaks it, counted from 0;
    /// no number where the rule is on the whole file.
    #[error("points {}", .fault.name())]
    Points {
        fault: PointFault,
        place: Option<u32>,
    },
    /// Memory was wanting.
    #[error("memory")]
    Memory,
}

impl PointsFault {
    /// The fault of the point with this number.
    pub(crate) fn at_point(fault: PointFault, number: u32) -> PointsFault
        ensures { result ≡ PointsFault.Points fault (Some number) }
    {
        PointsFault::Points {
            fault,
            place: Some(number),
        }
    }

    /// The fault of the whole file.
    pub(crate) fn of_file(fault: PointFault) -> PointsFault
        ensures { result ≡ PointsFault.Points fault None }
    {
        PointsFault::Points { fault, place: None }
    }
}

impl From<AllocError> for PointsFault {
    ghost from_gives = { λ _ e. e ≡ Memory };

    fn from(_: AllocError) -> PointsFault {
        PointsFault::Memory
    }
}
