ghost use Rattle.std.specs.Prelude.{◌≡◌, ◌⊎◌, ◌<◌, ◌&&◌, false, true, not, is_none, length, Some, None};
ghost use Rattle.guest_words.specs.Endings.{is_stuck};
ghost use Rattle.machine_core.specs.Machine.{IsAsTold};
ghost use Rattle.machine_core.specs.declared.limits.Mode.TheVariants.{Lone};
ghost use Rattle.lone_schedule.specs.Choice.{chosen};
ghost use Rattle.lone_schedule.specs.Drives.{CanTurn, GivesUp, RunsAlone, TakesTurn};

use crate::choice::choose;
use crate::open_call::{give_up, make_call};
use edge_ports::{Port, Sink, Source};
use machine_core::{Origin, Quiet, Stepped};
use seed_words::Words;

/// How many ordinary acts of a hart without frames one turn may make.
const QUANTUM: u32 = 64;

/// The hart that a word chooses, and the first where none is ready.
fn pick<K: Origin, S: Source, T: Sink, P: Port>(machine: &Quiet<K, S, T, P>, word: u32) -> u8
    requires slots { 0 < length machine.now.state.slots }
    ensures value { is_stuck machine.now.state ≡ false
        → chosen machine.now.state word ≡ Some result }
    ensures within { result < length machine.now.state.slots }
{
    match choose(machine, word) {
        Some(hart) => hart,
        None => 0,
    }
}

/// One turn: a step of the hart that the word chooses, or a whole call of a point.
fn make_turn<K: Origin, S: Source, T: Sink, P: Port>(
    machine: Quiet<K, S, T, P>,
    word: u32,
) -> Quiet<K, S, T, P>
    requires lone { K.mode ≡ Lone }
    requires can { CanTurn K.state machine }
    ensures turn { GivesUp machine result ⊎ TakesTurn word machine result }
{
    let mut machine = machine;
    let hart = pick(&machine, word);
    match machine.step(hart, QUANTUM) {
        Ok(Stepped::Moved) => machine,
        Ok(Stepped::Arrived(_)) => make_call(machine, hart),
        Ok(Stepped::Ended(_)) => machine,
        Ok(Stepped::Idle(_)) => unreachable!(),
        Err(_) => give_up(machine),
    }
}

/// Whether the run goes on, and the machine with it.
fn can_turn<K: Origin, S: Source, T: Sink, P: Port>(machine: &Quiet<K, S, T, P>) -> bool
    ensures value { result
        ≡ (is_none machine.now.state.ending && not machine.now.abandoned) }
    ensures told { IsAsTold K.state machine.now }
{
    machine.ending().is_none() && !machine.abandoned()
}

/// Drives a machine by the words of a seed, until its run has ended or memory is wanting.
pub fn run_alone<K: Origin, S: Source, T: Sink, P: Port>(
    machine: Quiet<K, S, T, P>,
    seed: u64,
) -> Quiet<K, S, T, P>
    requires lone { K.mode ≡ Lone }
    requires slots { 0 < length machine.state.slots }
    ensures lone { RunsAlone seed machine result }
    ensures over { result.state.ending ≡ None → result.abandoned ≡ true }
{
    let mut machine = machine;
    let mut words = Words::of(seed);
    while can_turn(&machine) {
        let word = words.draw();
        machine = make_turn(machine, word);
    }
    machine
}
