ghost use Rattle.std.specs.Prelude.{◌≡◌, IsTrue};
ghost use Rattle.machine_core.specs.Beginnings.{is_over};
ghost use Rattle.hart_workers.specs.Workers.{HasSeenOver};

use crossbeam_utils::Backoff;
use edge_ports::{Port, Sink, Source};
use machine_core::{Origin, Quiet};
use std::sync::Wait;
use stop_gate::{Enter, Gate, Out, Take};

/// Takes the machine out by a pass that has seen it over, when no other has it.
pub fn take_out<R: Wait, K: Origin, S: Source, T: Sink, P: Port>(
    rt: &R,
    gate: &Gate<Quiet<K, S, T, P>>,
    pass: Out<Quiet<K, S, T, P>>,
) -> Quiet<K, S, T, P>
    requires seen { HasSeenOver gate.now pass }
    ensures over { IsTrue (is_over result) }
{
    let mut pass = pass;
    let pause = Backoff::new();
    for _ in rt.forever() {
        match gate.try_enter(pass) {
            Enter::Standing { back, .. } => pass = gate.back(back),
            Enter::Inside(inside) => match gate.try_take(inside) {
                Take::Held { pass: inside, .. } => pass = gate.leave(inside),
                Take::Taken { held, .. } => return held,
            },
        }
        pause.snooze();
    }
    unreachable!()
}
