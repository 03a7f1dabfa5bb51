ghost use Rattle.std.specs.Prelude.{◌≡◌, length, slice_get};
ghost use Rattle.lone_schedule.specs.Choice.{chosen, ready_slots};

use edge_ports::{Port, Sink, Source};
use machine_core::{Origin, Quiet};

/// How many harts are ready.
fn count_ready<K: Origin, S: Source, T: Sink, P: Port>(machine: &Quiet<K, S, T, P>) -> u32
    ensures value { result ≡ length (ready_slots machine.now.state) }
{
    let mut count = 0;
    for hart in 0..machine.used() as u8 {
        if machine.is_ready(hart) {
            count += 1;
        }
    }
    count
}

/// The hart at this place among the ready ones, in the order of the slots; None past their end.
fn ready_at<K: Origin, S: Source, T: Sink, P: Port>(
    machine: &Quiet<K, S, T, P>,
    place: u32,
) -> Option<u8>
    ensures value { result ≡ slice_get (ready_slots machine.now.state) place }
{
    let mut left = place;
    for hart in 0..machine.used() as u8 {
        if machine.is_ready(hart) {
            if left == 0 {
                return Some(hart);
            }
            left -= 1;
        }
    }
    None
}

/// The hart that a word chooses: of the ready ones in the order of the slots the one at the place
/// that is the word modulo their number; None where none is ready.
pub fn choose<K: Origin, S: Source, T: Sink, P: Port>(
    machine: &Quiet<K, S, T, P>,
    word: u32,
) -> Option<u8>
    ensures value { result ≡ chosen machine.now.state word }
{
    // Most guests have one hart, which is found without counting.
    if machine.used() <= 1 {
        return if machine.is_ready(0) { Some(0) } else { None };
    }
    match count_ready(machine) {
        0 => None,
        count => ready_at(machine, word % count),
    }
}
