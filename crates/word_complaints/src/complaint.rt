use crate::option_name::OptionName;
use crate::place::Place;
use guest_words::Name;
use std::alloc::AllocError;

/// What is wrong with words.
#[derive(Drop)]
pub enum Complaint {
    /// The command has no such option.
    NoOption { name: Name },
    /// The option stands a second time.
    Twice { option: OptionName },
    /// No value stands behind the option.
    NoValue { option: OptionName },
    /// The option's value isn't one that it wants.
    BadValue { option: OptionName, value: Name },
    /// The word in the place of a load's number isn't one.
    NoNumber { word: Name },
    /// The word is no port word.
    NoPort { word: Name },
    /// The command takes no further word.
    Extra { word: Name },
    /// A word that has to stand doesn't.
    Missing { place: Place },
}

/// Why a walk over words stops.
#[derive(Drop)]
pub enum Stop {
    Complaint(Complaint),
    /// Memory was wanting.
    Memory,
}

impl From<AllocError> for Stop {
    ghost use Rattle.std.specs.Prelude.{◌≡◌};
    ghost use Rattle.word_complaints.specs.declared.complaint.Stop.TheVariants.{Memory};

    ghost from_gives = { λ _ e. e ≡ Memory };

    fn from(_: AllocError) -> Stop {
        Stop::Memory
    }
}

impl From<Complaint> for Stop {
    ghost use Rattle.std.specs.Prelude.{◌≡◌};
    ghost use Rattle.word_complaints.specs.declared.complaint.Stop.TheVariants as stop;

    ghost from_gives = { λ c e. e ≡ stop.Complaint c };

    fn from(complaint: Complaint) -> Stop {
        Stop::Complaint(complaint)
    }
}
