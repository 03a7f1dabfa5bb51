//! One worker.
ghost use Rattle.std.specs.Prelude.{◌≡◌, ◌≤◌, ◌<◌, IsTrue, length};
ghost use Rattle.hart_step.specs.Registers.{IsTextOf};
ghost use Rattle.machine_core.specs.Appends.{Appends};
ghost use Rattle.machine_core.specs.Beginnings.{is_over};
ghost use Rattle.stop_gate.specs.Passes.{IsOf};

use crate::alone::turn_alone;
use crate::pace::Pace;
use crate::pause::Pause;
use crate::sleepers::Sleepers;
use crate::steps::step_hart;
use crate::stretch::Stretch;
use crate::turned::Turned;
use crate::waking::{Others, tell};
use edge_ports::{Port, Sink, Source};
use guest_words::Points;
use hart_step::Text;
use machine_core::{Commit, Mode, Origin, Quiet};
use std::marker::Model;
use std::sync::Wait;
use stop_gate::{Door, Enter, Gate, Held, Out, Take};

/// What a worker keeps between its turns: its hart, how many acts a step may make, where workers
/// sleep, the stretch that is begun, and when another is.
#[derive(Drop)]
pub struct Worker<'a, K: Origin> {
    hart: u8,
    quantum: u32,
    sleepers: Option<&'a Sleepers>,
    stretch: Option<Stretch<K>>,
    pace: Pace,
}

impl<'a, K: Origin> Model for Worker<'a, K> {
    ghost use Rattle.hart_workers.specs.Workers.{Duty, IsDuty};

    ghost Value = { Duty };

    ghost view = { λ w. record { hart = w.hart; quantum = w.quantum } };

    ghost invariant = { λ w.
        IsDuty K.state (record { hart = w.hart; quantum = w.quantum }) };
}

/// Steps a hart in turn with the other workers, until the machine that it took is over: the pass
/// that it hands back has seen it so. Where it pays, it makes register acts outside the turn.
///
/// `quantum` is 1 to 4,096: how many ordinary acts a step under the turn may make.
pub fn work<R: Wait, K: Origin, S: Source, T: Sink, P: Port, D: Door>(
    rt: &R,
    gate: &Gate<Quiet<K, S, T, P>>,
    pass: Out<Quiet<K, S, T, P>>,
    text: &Text,
    points: &Points,
    hart: u8,
    door: &D,
    quantum: u32,
) -> Out<Quiet<K, S, T, P>>
    requires gate { IsOf gate.now pass }
    requires shared { K.mode ≡ Mode.Shared }
    requires text { IsTextOf text.now K.state.memory }
    requires points { points.now ≡ K.state.points }
    requires hart { hart < length K.state.slots }
    requires quantum { (1 ≤ quantum) × (quantum ≤ 4096) }
    ensures gate { IsOf gate.now result }
    ensures over { IsTrue result.view.over }
{
    Worker::new(hart, quantum, None).go(rt, gate, pass, text, points, door)
}

impl<'a, K: Origin> Worker<'a, K> {
    /// A worker that has made no turn. One with no sleepers only pauses.
    pub fn new(hart: u8, quantum: u32, sleepers: Option<&'a Sleepers>) -> Worker<'a, K>
        requires hart { hart < length K.state.slots }
        requires quantum { (1 ≤ quantum) × (quantum ≤ 4096) }
        ensures value { result ≡ record { hart = hart; quantum = quantum } }
    {
        Worker {
            hart,
            quantum,
            sleepers,
            stretch: None,
            pace: Pace::new(),
        }
    }

    /// Makes turns until the machine is over.
    pub fn go<R: Wait, S: Source, T: Sink, P: Port, D: Door>(
        self,
        rt: &R,
        gate: &Gate<Quiet<K, S, T, P>>,
        pass: Out<Quiet<K, S, T, P>>,
        text: &Text,
        points: &Points,
        door: &D,
    ) -> Out<Quiet<K, S, T, P>>
        requires gate { IsOf gate.now pass }
        requires shared { K.mode ≡ Mode.Shared }
        requires text { IsTextOf text.now K.state.memory }
        requires points { points.now ≡ K.state.points }
        ensures gate { IsOf gate.now result }
        ensures over { IsTrue result.view.over }
    {
        let (mut worker, mut pass) = (self, pass);
        let mut pause = Pause::new();
        if let Some(sleepers) = worker.sleepers {
            sleepers.begin(worker.hart);
        }
        for _ in rt.forever() {
            door.ask(worker.hart);
            match worker.turn(gate, pass, text, points) {
                (next, Turned::Over) => return next,
                (next, Turned::Moved) => {
                    pass = next;
                    pause.end();
                }
                (next, Turned::Held) => {
                    pass = next;
                    pause.short();
                }
                (next, Turned::Idle) => {
                    let (next, stood) = worker.stand_in(rt, gate, next);
                    pass = next;
                    if stood {
                        pause.short();
                    } else {
                        pause.long(rt, worker.sleepers, worker.hart);
                    }
                }
                (next, Turned::Arrived) => {
                    let (hart, quantum) = (worker.hart, worker.quantum);
                    pass = turn_alone(rt, gate, next, hart, quantum, worker.sleepers);
                    pause.end();
                }
            }
        }
        unreachable!()
    }

    /// Steps the harts below its own whose workers haven't begun; answers whether there are any.
    ///
    /// Where no thread can be had, these begin only once this worker has ended, so it mustn't wait
    /// for them. The worker of the last hart always begins first.
    fn stand_in<R: Wait, S: Source, T: Sink, P: Port>(
        &self,
        rt: &R,
        gate: &Gate<Quiet<K, S, T, P>>,
        pass: Out<Quiet<K, S, T, P>>,
    ) -> (Out<Quiet<K, S, T, P>>, bool)
        requires gate { IsOf gate.now pass }
        requires shared { K.mode ≡ Mode.Shared }
        ensures gate { IsOf gate.now result.0 }
    {
        let (mut pass, mut stood) = (pass, false);
        for hart in 0..self.hart {
            if self.is_absent(hart) {
                pass = turn_alone(rt, gate, pass, hart, self.quantum, self.sleepers);
                stood = true;
            }
        }
        (pass, stood)
    }

    /// Whether the worker of the hart is known not to have begun.
    fn is_absent(&self, hart: u8) -> bool {
        match self.sleepers {
            Some(sleepers) => sleepers.is_absent(hart),
            None => false,
        }
    }

    /// One try: it enters, makes the stretch that was begun, takes the machine, acts, and gives it
    /// back.
    fn turn<S: Source, T: Sink, P: Port>(
        &mut self,
        gate: &Gate<Quiet<K, S, T, P>>,
        pass: Out<Quiet<K, S, T, P>>,
        text: &Text,
        points: &Points,
    ) -> (Out<Quiet<K, S, T, P>>, Turned)
        requires gate { IsOf gate.now pass }
        requires text { IsTextOf text.now K.state.memory }
        requires points { points.now ≡ K.state.points }
        ensures same { self.new ≡ self.old }
        ensures gate { IsOf gate.now result.0 }
        ensures over { result.1 ≡ Turned.Over → IsTrue result.0.view.over }
    {
        let inside = match gate.try_enter(pass) {
            Enter::Standing { back, .. } => return (gate.back(back), Turned::Held),
            Enter::Inside(inside) => inside,
        };
        if let Some(stretch) = &mut self.stretch {
            stretch.run(text, points);
        }
        match gate.try_take(inside) {
            Take::Held { pass, .. } => (gate.leave(pass), Turned::Held),
            Take::Taken { turn, mut held } => {
                let turned = self.act_and_tell(&mut held, text);
                let inside = gate.give(turn, held);
                (gate.leave(inside), turned)
            }
        }
    }

    /// Acts, and wakes the workers of the harts that are ready for it.
    fn act_and_tell<S: Source, T: Sink, P: Port>(
        &mut self,
        machine: &mut Quiet<K, S, T, P>,
        text: &Text,
    ) -> Turned
        requires text { IsTextOf text.now K.state.memory }
        ensures same { self.new ≡ self.old }
        ensures appends { Appends machine.old.history machine.new.history }
        ensures stays { IsTrue (is_over machine.old) → IsTrue (is_over machine.new) }
        ensures over { result ≡ Turned.Over → IsTrue (is_over machine.new) }
    {
        let before = Others::of(machine, self.hart);
        let turned = self.act(machine, text);
        if let Some(sleepers) = self.sleepers {
            tell(machine, self.hart, before, turned, sleepers);
        }
        turned
    }

    /// What the worker does with the machine: it commits its stretch or steps its hart, and begins
    /// the next stretch where one is due.
    fn act<S: Source, T: Sink, P: Port>(
        &mut self,
        machine: &mut Quiet<K, S, T, P>,
        text: &Text,
    ) -> Turned
        requires text { IsTextOf text.now K.state.memory }
        ensures same { self.new ≡ self.old }
        ensures appends { Appends machine.old.history machine.new.history }
        ensures stays { IsTrue (is_over machine.old) → IsTrue (is_over machine.new) }
        ensures over { result ≡ Turned.Over → IsTrue (is_over machine.new) }
    {
        let turned = self.move_on(machine);
        if turned == Turned::Moved && self.pace.is_due() {
            self.begin(machine, text);
        }
        turned
    }

    /// Commits the stretch that was made, or steps the hart where there is none.
    fn move_on<S: Source, T: Sink, P: Port>(&mut self, machine: &mut Quiet<K, S, T, P>) -> Turned
        ensures same { self.new ≡ self.old }
        ensures appends { Appends machine.old.history machine.new.history }
        ensures stays { IsTrue (is_over machine.old) → IsTrue (is_over machine.new) }
        ensures over { result ≡ Turned.Over → IsTrue (is_over machine.new) }
    {
        let Some(stretch) = self.stretch.take() else {
            return step_hart(machine, self.hart, self.quantum);
        };
        self.pace.made(stretch.count());
        if machine.over() || stretch.count() == 0 {
            return step_hart(machine, self.hart, self.quantum);
        }
        match stretch.commit(machine, self.hart) {
            Commit::Committed | Commit::Moved { .. } => Turned::Moved,
            Commit::Short { .. } => step_hart(machine, self.hart, self.quantum),
            Commit::Memory => {
                machine.abandon();
                Turned::Over
            }
        }
    }

    /// Begins a stretch, where another hart is ready, which gets the machine meanwhile.
    fn begin<S: Source, T: Sink, P: Port>(&mut self, machine: &Quiet<K, S, T, P>, text: &Text)
        requires text { IsTextOf text.now K.state.memory }
        ensures same { self.new ≡ self.old }
    {
        if is_another_ready(machine, self.hart) {
            self.stretch = Stretch::begin(machine, self.hart, text);
        } else {
            self.pace.rest();
        }
    }
}

/// Whether a hart is ready beside this one.
fn is_another_ready<K: Origin, S: Source, T: Sink, P: Port>(
    machine: &Quiet<K, S, T, P>,
    hart: u8,
) -> bool {
    for other in 0..machine.harts() as u8 {
        if other != hart && machine.is_ready(other) {
            return true;
        }
    }
    false
}
