ghost use Rattle.std.specs.Prelude.{◌≡◌, ◌⊎◌};
ghost use Rattle.run_history.specs.After.{state_after};
ghost use Rattle.machine_core.specs.declared.limits.Mode.TheVariants.{Lone};
ghost use Rattle.machine_core.specs.QuietSteps.{stepped_of, HasArrived};
ghost use Rattle.open_calls.specs.Nest.{lowest};
ghost use Rattle.lone_schedule.specs.Drives.{CanTurn, GivesUp, IsCalling, MakesTurn};

use edge_ports::{Port, Sink, Source};
use machine_core::{Active, Begin, Next, Origin, Quiet};

/// The call of the point at which a hart stands, until its frames have closed, or as far as it
/// goes.
pub fn make_call<K: Origin, S: Source, T: Sink, P: Port>(
    machine: Quiet<K, S, T, P>,
    hart: u8,
) -> Quiet<K, S, T, P>
    requires lone { K.mode ≡ Lone }
    requires can { CanTurn K.state machine }
    requires arrived { HasArrived (stepped_of machine.state hart) }
    ensures call { GivesUp machine result
        ⊎ MakesTurn hart machine.history machine.state result }
{
    match machine.begin_lone(hart) {
        Begin::Active(call) => go_on(call),
        Begin::Memory(machine) => give_up(machine),
    }
}

/// Goes on under open calls.
fn go_on<K: Origin, S: Source, T: Sink, P: Port>(call: Active<K, S, T, P>) -> Quiet<K, S, T, P>
    requires calling { IsCalling K.state call }
    ensures turn { MakesTurn call.hart (lowest call.nest)
        (state_after K.state (lowest call.nest)) result }
{
    let mut call = call;
    loop {
        match call.step() {
            Next::Active(next) => call = next,
            Next::Quiet(machine) => return machine,
            Next::Memory(call) => return call.abandon(),
        }
    }
}

/// Lets a machine stand as it is.
pub fn give_up<K: Origin, S: Source, T: Sink, P: Port>(
    machine: Quiet<K, S, T, P>,
) -> Quiet<K, S, T, P>
    requires can { CanTurn K.state machine }
    ensures given { GivesUp machine result }
{
    let mut machine = machine;
    machine.abandon();
    machine
}
