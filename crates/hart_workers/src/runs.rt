//! All workers of a machine.
ghost use Rattle.std.specs.Prelude.{◌≡◌, ◌<◌, ◌≤◌, [], IsTrue, length, All, vec_len, vec_capacity};
ghost use Rattle.hart_step.specs.Registers.{IsTextOf};
ghost use Rattle.machine_core.specs.Beginnings.{is_over};
ghost use Rattle.machine_core.specs.contracts.machine.Quiet as machine;
ghost use Rattle.std.specs.Thread.{IsSend};
ghost use Rattle.stop_gate.specs.Passes.{IsNewOf};
ghost use Rattle.hart_workers.specs.Parts.{Crosses, IsOfStart, IsPart, IsWaiting};
ghost use Rattle.hart_workers.specs.Workers.{HasSeenOver};

use crate::settle::take_out;
use crate::sleepers::Sleepers;
use crate::steps::give_up;
use crate::worker::Worker;
use edge_ports::{Port, Sink, Source};
use guest_words::Points;
use hart_step::Text;
use machine_core::{Mode, Origin, Quiet};
use std::alloc::Global;
use std::sync::Wait;
use std::thread::{Threads, join};
use stop_gate::{Door, Gate, Out};

/// How many ordinary acts one step under the turn may make: so many that the hand-over costs little
/// beside them.
const QUANTUM: u32 = 512;

/// A worker for each place, of the harts from `first` on, side by side. One of the passes comes
/// back.
#[cycle(parts)]
fn run_part<
    R: Threads + Wait + Sync,
    K: Origin + Send + Sync,
    S: Source + Send,
    T: Sink + Send,
    P: Port + Send,
    D: Door,
>(
    rt: &R,
    gate: &Gate<Quiet<K, S, T, P>>,
    places: &mut [Option<Out<Quiet<K, S, T, P>>>],
    text: &Text,
    points: &Points,
    first: u8,
    door: &D,
    sleepers: &Sleepers,
) -> Out<Quiet<K, S, T, P>>
    requires shared { K.mode ≡ Mode.Shared }
    requires part { IsPart K.state gate.now first places.old }
    requires start { IsOfStart K.state text.now points.now }
    requires sends { IsSend (machine.the_row K.row S.row T.row P.row
        K.Origin S.Source T.Sink P.Port) }
    ensures over { HasSeenOver gate.now result }
{
    if places.len() == 1 {
        let Some(pass) = places[0].take() else {
            unreachable!()
        };
        let worker = Worker::new(first, QUANTUM, Some(sleepers));
        return worker.go(rt, gate, pass, text, points, door);
    }
    let half = places.len() / 2;
    let next = first + half as u8;
    let (low, high) = places.split_at_mut(half);
    let (pass, _) = join(
        rt,
        || -> Out<Quiet<K, S, T, P>>
            requires { Crosses R.row D.row K.row S.row T.row P.row
                (machine.the_row K.row S.row T.row P.row K.Origin S.Source T.Sink P.Port)
                × (K.mode ≡ Mode.Shared)
                × IsPart K.state gate.now first low.now
                × IsOfStart K.state text.now points.now }
            ensures { HasSeenOver gate.entry.now result }
        { run_part(rt, gate, low, text, points, first, door, sleepers) },
        || -> Out<Quiet<K, S, T, P>>
            requires { Crosses R.row D.row K.row S.row T.row P.row
                (machine.the_row K.row S.row T.row P.row K.Origin S.Source T.Sink P.Port)
                × (K.mode ≡ Mode.Shared)
                × IsPart K.state gate.now next high.now
                × IsOfStart K.state text.now points.now }
            ensures { HasSeenOver gate.entry.now result }
        { run_part(rt, gate, high, text, points, next, door, sleepers) },
    );
    pass
}

/// The passes in places of their own, from which each worker takes its.
fn placed<K: Origin, S: Source, T: Sink, P: Port>(
    gate: &Gate<Quiet<K, S, T, P>>,
    passes: Vec<Out<Quiet<K, S, T, P>>>,
    places: Vec<Option<Out<Quiet<K, S, T, P>>>>,
) -> Vec<Option<Out<Quiet<K, S, T, P>>>>
    requires each { All (λ p. IsNewOf gate.now 0 p) passes.items }
    requires room { (places.items ≡ []) × (vec_len passes ≤ vec_capacity places) }
    ensures counts { vec_len result ≡ vec_len passes }
    ensures each { All (IsWaiting gate.now) result.items }
{
    let (mut passes, mut places) = (passes, places);
    while let Some(pass) = passes.pop() {
        places.push_reserved(Some(pass));
    }
    places
}

/// Runs a machine by a worker for each of its harts, until it is over. A machine whose run has
/// ended comes back as it is, and one for whose workers memory is wanting is abandoned.
pub fn run_all<
    R: Threads + Wait + Sync,
    K: Origin + Send + Sync,
    S: Source + Send,
    T: Sink + Send,
    P: Port + Send,
    D: Door,
>(rt: &R, alloc: Global, machine: Quiet<K, S, T, P>, door: &D) -> Quiet<K, S, T, P>
    requires shared { K.mode ≡ Mode.Shared }
    requires slots { 0 < length machine.state.slots }
    ensures over { IsTrue (is_over result) }
{
    if machine.ending().is_some() {
        return machine;
    }
    let harts = machine.harts() as u8;
    let (Ok(text), Ok(points)) = (machine.text(), machine.points()) else {
        return give_up(machine);
    };
    let (Ok(places), Ok(sleepers)) = (
        Vec::with_capacity(alloc, usize::from(harts)),
        Sleepers::new(alloc, harts),
    ) else {
        return give_up(machine);
    };
    let (gate, passes) = match Gate::new(alloc, machine, harts) {
        Ok(made) => made,
        Err(machine) => return give_up(machine),
    };
    let mut places = placed(&gate, passes, places);
    let pass = run_part(
        rt,
        &gate,
        places.as_mut_slice(),
        &text,
        &points,
        0,
        door,
        &sleepers,
    );
    take_out(rt, &gate, pass)
}
