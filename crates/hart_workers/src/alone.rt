//! A turn alone.
ghost use Rattle.std.specs.Prelude.{◌≡◌, ◌≤◌, ◌<◌, length};
ghost use Rattle.stop_gate.specs.Passes.{IsOf};

use crate::sleepers::Sleepers;
use crate::steps::step_alone;
use crate::waking::wake_ready;
use crossbeam_utils::Backoff;
use edge_ports::{Port, Sink, Source};
use machine_core::{Mode, Origin, Quiet};
use std::sync::Wait;
use stop_gate::{Alone, Gate, Out, Raise, Seize, Stopping};

/// Raises the stop bit, waits until nobody is inside, steps the hart, with the whole call of a
/// point where it arrives at one, and lowers the bit.
pub fn turn_alone<R: Wait, K: Origin, S: Source, T: Sink, P: Port>(
    rt: &R,
    gate: &Gate<Quiet<K, S, T, P>>,
    pass: Out<Quiet<K, S, T, P>>,
    hart: u8,
    quantum: u32,
    sleepers: Option<&Sleepers>,
) -> Out<Quiet<K, S, T, P>>
    requires gate { IsOf gate.now pass }
    requires shared { K.mode ≡ Mode.Shared }
    requires hart { hart < length K.state.slots }
    requires quantum { (1 ≤ quantum) × (quantum ≤ 4096) }
    ensures gate { IsOf gate.now result }
{
    let stopping = raise(rt, gate, pass);
    let alone = seize(rt, gate, stopping);
    gate.lower(turn(gate, alone, hart, quantum, sleepers))
}

/// Raises the stop bit, when no other pass has.
fn raise<R: Wait, K: Origin, S: Source, T: Sink, P: Port>(
    rt: &R,
    gate: &Gate<Quiet<K, S, T, P>>,
    pass: Out<Quiet<K, S, T, P>>,
) -> Stopping<Quiet<K, S, T, P>>
    requires gate { IsOf gate.now pass }
    ensures gate { IsOf gate.now result }
{
    let mut pass = pass;
    let pause = Backoff::new();
    for _ in rt.forever() {
        match gate.raise(pass) {
            Raise::Stopping(stopping) => return stopping,
            Raise::Busy { pass: out, .. } => pass = out,
        }
        pause.snooze();
    }
    unreachable!()
}

/// Waits until nobody is inside.
fn seize<R: Wait, K: Origin, S: Source, T: Sink, P: Port>(
    rt: &R,
    gate: &Gate<Quiet<K, S, T, P>>,
    pass: Stopping<Quiet<K, S, T, P>>,
) -> Alone<Quiet<K, S, T, P>>
    requires gate { IsOf gate.now pass }
    ensures gate { IsOf gate.now result }
{
    let mut pass = pass;
    let pause = Backoff::new();
    for _ in rt.forever() {
        match gate.seize(pass) {
            Seize::Alone(alone) => return alone,
            Seize::NotYet { pass: stopping, .. } => pass = stopping,
        }
        pause.snooze();
    }
    unreachable!()
}

/// Takes the machine, steps the hart, wakes the workers of harts that are ready, and gives the
/// machine back.
fn turn<K: Origin, S: Source, T: Sink, P: Port>(
    gate: &Gate<Quiet<K, S, T, P>>,
    pass: Alone<Quiet<K, S, T, P>>,
    hart: u8,
    quantum: u32,
    sleepers: Option<&Sleepers>,
) -> Alone<Quiet<K, S, T, P>>
    requires gate { IsOf gate.now pass }
    requires shared { K.mode ≡ Mode.Shared }
    requires hart { hart < length K.state.slots }
    requires quantum { (1 ≤ quantum) × (quantum ≤ 4096) }
    ensures gate { IsOf gate.now result }
{
    let (turn, held) = gate.take_alone(pass);
    let held = step_alone(held, &turn, hart, quantum);
    if let Some(sleepers) = sleepers {
        wake_ready(&held, sleepers);
    }
    gate.give_alone(turn, held)
}
