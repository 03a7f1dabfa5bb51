//! A file of a device against the calls on the device, one after the other.
ghost use Rattle.std.specs.Prelude.{◌≡◌, length, option_map};
ghost use Rattle.edge_ports.specs.DevicesMatch.{records_at};
ghost use Rattle.run_history.specs.Counts.{records_of, records_of_all};
ghost use Rattle.rescue_audit.specs.Walk.{left_after, left_by, may_stand, side_bytes};

use guest_words::{Record, Way};
use run_history::Entry;

/// Which file of a device is walked.
#[derive(Clone, Copy)]
pub(crate) enum Side {
    Input,
    Output,
}

/// The bytes that a call moved on a side.
fn bytes_of(side: Side, call: &Record) -> &[u8]
    ensures value { result.now ≡ side_bytes side call.now }
{
    match (side, call.way) {
        (Side::Input, Way::Read) => call.bytes.items(),
        (Side::Output, Way::Write) => call.bytes.items(),
        _ => &[],
    }
}

/// Whether a call may stand where so much is left: a read that answered 0 found no byte.
fn may_stand(side: Side, left: &[u8], call: &Record) -> bool
    ensures value { result ≡ may_stand side left.now call.now }
{
    match (side, call.way) {
        (Side::Input, Way::Read) => call.answer != 0 || left.is_empty(),
        _ => true,
    }
}

/// What a call leaves of a file, if its bytes stand next there.
fn left_by<'a>(side: Side, left: &'a [u8], call: &Record) -> Option<&'a [u8]>
    ensures value { option_map (λ rest. rest.now) result
        ≡ left_by side left.now call.now }
{
    if may_stand(side, left, call) {
        left.strip_prefix(bytes_of(side, call))
    } else {
        None
    }
}

/// What the calls of entries on a device leave of its file, if their bytes stand there in order.
#[cycle(walk)]
pub(crate) fn left_after_all<'a>(
    side: Side,
    fd: u64,
    file: &'a [u8],
    entries: &[Entry],
) -> Option<&'a [u8]>
    ensures value { option_map (λ rest. rest.now) result
        ≡ left_after side file.now (records_at fd (records_of_all entries.now)) }
{
    let mut left = file;
    for entry in entries {
        match left_after(side, fd, left, entry) {
            Some(rest) => left = rest,
            None => return None,
        }
    }
    Some(left)
}

#[cycle(walk)]
#[tactic(auto, unfolding(run_history::specs::Counts::records_of, crate::specs::Walk::left_after))]
fn left_after<'a>(side: Side, fd: u64, left: &'a [u8], entry: &Entry) -> Option<&'a [u8]>
    ensures value { option_map (λ rest. rest.now) result
        ≡ left_after side left.now (records_at fd (records_of entry.now)) }
{
    match entry {
        Entry::Called { call, .. } => {
            if call.port == fd {
                left_by(side, left, call)
            } else {
                Some(left)
            }
        }
        Entry::Rescued { inside, .. } => left_after_all(side, fd, left, inside.as_slice()),
        Entry::Ran { .. } => Some(left),
        Entry::Entered { .. } => Some(left),
        Entry::Ended { .. } => Some(left),
    }
}
