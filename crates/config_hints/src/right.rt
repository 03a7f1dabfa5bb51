ghost use Rattle.std.specs.Prelude.{◌≡◌, ◌++◌, OnOk, string_bytes};
ghost use Rattle.config_hints.specs.Right.{known_keys, right_of, right_ranges, right_values, right_words};

use crate::shown::put_ranges;
use guest_words::{MemoryWant, Span};
use rescue_config::PointFault;

fn known_keys(place: Option<u32>) -> &'static str
    ensures { result.now ≡ known_keys place }
{
    match place {
        None => "the keys of a rescue file are version and point",
        Some(_) =>
            "the keys of a point are function, entry, returns and kind, and from version 2 on codes and limit",
    }
}

fn right_values(place: Option<u32>) -> &'static str
    ensures { result.now ≡ right_values place }
{
    match place {
        None => "each point stands under a line [[point]]",
        Some(_) => "function is a text, as 'handle', and entry an integer, as 0x10400",
    }
}

fn right_words(place: Option<u32>, fault: PointFault) -> &'static str
    ensures { result.now ≡ right_words place fault }
{
    match fault {
        PointFault::Toml => {
            "a file of one point reads: point = [{ function = 'handle', returns = -1 }]"
        }
        PointFault::UnknownKey => known_keys(place),
        PointFault::BadVersion => "version is 1 where it is left out",
        PointFault::BadValue => right_values(place),
        PointFault::TooMany { .. } => "a rescue file has at most 256 points",
        PointFault::Missing => "a point has returns, and function or entry",
        PointFault::Both => "a point has one of the two",
        PointFault::BadReturn => {
            "an integer is from -9223372036854775808 to 9223372036854775807"
        }
        PointFault::BadCodes => {
            "the faults are fetch-rights, fetch-misaligned, illegal, load-rights, store-rights, atomic-misaligned, breakpoint and blocked-in-point"
        }
        PointFault::BadLimit => "where limit is left out, any number of calls is rescued",
        PointFault::BadKind => "kind is 'blocking' or 'off', and in version 3 also 'loose'",
        PointFault::Mixed { .. } =>
            "a file's points are loose or blocking, not both; those that are off go with either",
        PointFault::UnknownFunction => {
            "rescue list prints the symbols; for a stripped program entry serves"
        }
        PointFault::Ambiguous { .. } => "entry in place of function says which one",
        PointFault::Misaligned => {
            "an entry is the address of a function's first instruction, a multiple of 4"
        }
        PointFault::OutsideText => "the executable ranges are ",
        PointFault::Twice { .. } => "each entry has one point",
        PointFault::LooseHere => "a file that is run has the kinds 'blocking' and 'off'",
    }
}

/// Appends what would be right.
pub fn put_right(
    text: &mut String,
    ranges: &[Span],
    place: Option<u32>,
    fault: PointFault,
) -> Result<(), MemoryWant>
    ensures ok { OnOk result
        (string_bytes text.new ≡ string_bytes text.old ++ right_of ranges.now place fault) }
{
    text.push_str(right_words(place, fault))?;
    put_right_ranges(text, ranges, fault)
}

/// Appends the executable ranges where they are what would be right.
fn put_right_ranges(text: &mut String, ranges: &[Span], fault: PointFault) -> Result<(), MemoryWant>
    ensures ok { OnOk result
        (string_bytes text.new ≡ string_bytes text.old ++ right_ranges ranges.now fault) }
{
    match fault {
        PointFault::OutsideText => put_ranges(text, ranges),
        _ => Ok(()),
    }
}
