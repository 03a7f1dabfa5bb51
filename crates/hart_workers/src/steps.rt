//! What a worker does with the machine while it has it.
ghost use Rattle.std.specs.Prelude.{◌≡◌, ◌≤◌, ◌<◌, IsTrue, None, length};
ghost use Rattle.machine_core.specs.Appends.{Appends};
ghost use Rattle.machine_core.specs.Beginnings.{beginning, is_over};
ghost use Rattle.open_calls.specs.Nest.{lowest};
ghost use Rattle.hart_workers.specs.Workers.{CanBegin};

use crate::turned::Turned;
use edge_ports::{Port, Sink, Source};
use machine_core::{Active, Begin, Mode, Next, Origin, Quiet, Stepped};
use stop_gate::{AloneTurning, Held};

/// Steps a hart once, where the machine isn't over. After want of memory the machine is abandoned.
pub fn step_hart<K: Origin, S: Source, T: Sink, P: Port>(
    machine: &mut Quiet<K, S, T, P>,
    hart: u8,
    quantum: u32,
) -> Turned
    requires hart { hart < length K.state.slots }
    requires quantum { (1 ≤ quantum) × (quantum ≤ 4096) }
    ensures appends { Appends machine.old.history machine.new.history }
    ensures stays { IsTrue (is_over machine.old) → IsTrue (is_over machine.new) }
    ensures over { result ≡ Turned.Over → IsTrue (is_over machine.new) }
    ensures arrived { result ≡ Turned.Arrived → CanBegin hart machine.new }
{
    if machine.over() {
        return Turned::Over;
    }
    match machine.step(hart, quantum) {
        Ok(Stepped::Moved) => Turned::Moved,
        Ok(Stepped::Idle(_)) => Turned::Idle,
        Ok(Stepped::Arrived(_)) => Turned::Arrived,
        Ok(Stepped::Ended(_ending)) => Turned::Over,
        Err(_) => {
            machine.abandon();
            Turned::Over
        }
    }
}

/// Steps a hart once, and, where it arrives at a point, makes the whole call of it.
pub fn step_alone<K: Origin, S: Source, T: Sink, P: Port>(
    machine: Quiet<K, S, T, P>,
    alone: &AloneTurning<Quiet<K, S, T, P>>,
    hart: u8,
    quantum: u32,
) -> Quiet<K, S, T, P>
    requires shared { K.mode ≡ Mode.Shared }
    requires alone { alone.now.view.origin ≡ beginning K.state K.devices K.mode }
    requires hart { hart < length K.state.slots }
    requires quantum { (1 ≤ quantum) × (quantum ≤ 4096) }
    ensures appends { Appends machine.history result.history }
    ensures stays { IsTrue (is_over machine) → IsTrue (is_over result) }
{
    let mut machine = machine;
    match step_hart(&mut machine, hart, quantum) {
        Turned::Arrived => make_call(machine, alone, hart),
        _ => machine,
    }
}

/// The call of the point at which a hart stands, from its entering to its end.
fn make_call<K: Origin, S: Source, T: Sink, P: Port>(
    machine: Quiet<K, S, T, P>,
    alone: &AloneTurning<Quiet<K, S, T, P>>,
    hart: u8,
) -> Quiet<K, S, T, P>
    requires shared { K.mode ≡ Mode.Shared }
    requires alone { alone.now.view.origin ≡ beginning K.state K.devices K.mode }
    requires arrived { CanBegin hart machine }
    ensures appends { Appends machine.history result.history }
{
    match machine.begin(alone, hart) {
        Begin::Active(call) => finish_call(call),
        Begin::Memory(machine) => give_up(machine),
    }
}

/// An open call, to its end. After want of memory the machine is abandoned.
fn finish_call<K: Origin, S: Source, T: Sink, P: Port>(
    call: Active<K, S, T, P>,
) -> Quiet<K, S, T, P>
    ensures appends { Appends (lowest call.nest) result.history }
{
    let mut call = call;
    loop {
        match call.step() {
            Next::Active(next) => call = next,
            Next::Quiet(machine) => return machine,
            Next::Memory(call) => return call.abandon(),
        }
    }
}

/// Lets a machine stand as it is.
pub fn give_up<K: Origin, S: Source, T: Sink, P: Port>(
    machine: Quiet<K, S, T, P>,
) -> Quiet<K, S, T, P>
    requires going { machine.state.ending ≡ None }
    ensures same { result.history ≡ machine.history }
    ensures over { IsTrue (is_over result) }
{
    let mut machine = machine;
    machine.abandon();
    machine
}
