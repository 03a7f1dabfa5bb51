//! Steps of a machine with no call open.
ghost use Rattle.std.specs.Prelude.{◌≡◌, ◌≤◌, ◌<◌, [], false, length, None, Some, IfErr, IfOk, OnErr};
ghost use Rattle.guest_words.specs.declared.limits.TheConstants.{BUDGET, HARTS};
ghost use Rattle.guest_words.specs.Image.{IsLoadList};
ghost use Rattle.guest_words.specs.Start.{start_of};
ghost use Rattle.edge_ports.specs.DevicesMatch.{DevicesMatch};
ghost use Rattle.edge_ports.specs.Seen.{seen as told};
ghost use Rattle.run_history.specs.After.{state_after};
ghost use Rattle.run_history.specs.Ahead.{ahead};
ghost use Rattle.run_history.specs.Counts.{records_of_all};
ghost use Rattle.run_history.specs.Run.{IsRun};
ghost use Rattle.machine_core.specs.Appends.{Appends};
ghost use Rattle.machine_core.specs.Beginnings.{beginning};
ghost use Rattle.machine_core.specs.Machine.{AllOpen};
ghost use Rattle.machine_core.specs.Nearer.{BeginsNearer};
ghost use Rattle.machine_core.specs.OpenSteps.{abandoned_of, Begins};
ghost use Rattle.machine_core.specs.QuietSteps.{stepped_of, HasArrived, Steps};

use crate::inner::Inner;
use crate::limits::{Limits, Mode};
use crate::machine::{Active, Begin, Core, Quiet};
use crate::origin::Origin;
use crate::stepped::Stepped;
use edge_ports::{Devices, Port, Sink, Source};
use guest_words::{Image, MemoryWant, PointRef, Points};
use run_history::History;
use std::alloc::Global;
use stop_gate::AloneTurning;

impl<K: Origin, S: Source, T: Sink, P: Port> Quiet<K, S, T, P> {
    /// A machine at its start. `harts` is 1 to 64, and `budget` is 1 to 20,000,000 steps.
    ///
    /// An Err has the devices as they were.
    pub fn start(
        alloc: Global,
        image: &Image,
        points: &Points,
        limits: Limits,
        devices: Devices<S, T, P>,
    ) -> Result<Quiet<K, S, T, P>, Devices<S, T, P>>
        requires image { IsLoadList image.now.loads }
        requires harts { (1 ≤ limits.harts) × (limits.harts ≤ HARTS) }
        requires budget { (1 ≤ limits.budget) × (limits.budget ≤ BUDGET) }
        requires open { AllOpen (told S.end T.end P.end devices) }
        requires state { K.state ≡ start_of image.now points.now limits.harts
            (length devices.ports.items) limits.budget }
        requires devices { K.devices ≡ told S.end T.end P.end devices }
        requires mode { K.mode ≡ limits.mode }
        ensures ok { IfOk result (λ machine. machine ≡ record {
          history = [];
          state = K.state;
          devices = K.devices;
          abandoned = false;
        }) }
        ensures err { IfErr result (λ back. back ≡ record devices { shut = back.shut }) }
        ensures same { IfErr result (λ back.
            told S.end T.end P.end back ≡ told S.end T.end P.end devices) }
    {
        let mut devices = devices;
        if devices.ready().is_err() {
            return Err(devices);
        }
        let Limits { harts, budget, .. } = limits;
        let ports = devices.ports.len() as u64;
        let inner = match Inner::start(alloc, image, points, harts, ports, budget) {
            Ok(inner) => inner,
            Err(_) => return Err(devices),
        };
        match Box::new(alloc, Core { inner, devices }) {
            Ok(core) => Ok(Quiet { core }),
            Err(failed) => {
                let Core { devices, .. } = failed.value;
                Err(devices)
            }
        }
    }

    /// One step of a hart: as many ordinary acts in a row as it can make, at most `quantum` of
    /// them, of which none but the first asks for pages; or one call on a device; or the ending of
    /// the run.
    ///
    /// `quantum` is 1 to 4,096. After an Err all is as before, the devices too.
    pub fn step(&mut self, hart: u8, quantum: u32) -> Result<Stepped, MemoryWant>
        requires going { self.old.state.ending ≡ None }
        requires kept { self.old.abandoned ≡ false }
        requires hart { hart < length K.state.slots }
        requires quantum { (1 ≤ quantum) × (quantum ≤ 4096) }
        ensures value { IfOk result (λ stepped. stepped_of self.old.state hart ≡ Some stepped) }
        ensures steps { IfOk result (λ stepped. Steps hart quantum self.old stepped self.new) }
        ensures nearer { result ≡ Ok Stepped.Moved
            → ahead self.new.state hart < ahead self.old.state hart }
        ensures appends { Appends self.old.history self.new.history }
        ensures err { OnErr result (self.new ≡ self.old) }
    {
        let core: &mut Core<K, S, T, P> = self.core.as_mut();
        core.inner.turn_to(hart);
        core.inner.step(&mut core.devices, quantum)
    }

    /// Opens the call of the point at which a hart stands, in a run that one thread drives.
    pub fn begin_lone(self, hart: u8) -> Begin<K, S, T, P>
        requires lone { K.mode ≡ Mode.Lone }
        requires going { self.state.ending ≡ None }
        requires kept { self.abandoned ≡ false }
        requires arrived { HasArrived (stepped_of self.state hart) }
        ensures begins { (point : PointRef)
            → stepped_of self.state hart ≡ Some (Stepped.Arrived point)
            → Begins hart point self result }
        ensures nearer { BeginsNearer self.state hart result }
    {
        self.open_call(hart)
    }

    /// The same in a run by threads, for the one whose pass is alone: no other has the machine, and
    /// none takes it before this pass has given it back.
    pub fn begin(self, alone: &AloneTurning<Quiet<K, S, T, P>>, hart: u8) -> Begin<K, S, T, P>
        requires shared { K.mode ≡ Mode.Shared }
        requires alone { alone.now.view.origin ≡ beginning K.state K.devices K.mode }
        requires going { self.state.ending ≡ None }
        requires kept { self.abandoned ≡ false }
        requires arrived { HasArrived (stepped_of self.state hart) }
        ensures begins { (point : PointRef)
            → stepped_of self.state hart ≡ Some (Stepped.Arrived point)
            → Begins hart point self result }
        ensures nearer { BeginsNearer self.state hart result }
    {
        let _ = alone;
        self.open_call(hart)
    }

    fn open_call(self, hart: u8) -> Begin<K, S, T, P>
        requires going { self.state.ending ≡ None }
        requires kept { self.abandoned ≡ false }
        requires arrived { HasArrived (stepped_of self.state hart) }
        ensures begins { (point : PointRef)
            → stepped_of self.state hart ≡ Some (Stepped.Arrived point)
            → Begins hart point self result }
        ensures nearer { BeginsNearer self.state hart result }
    {
        let Quiet { mut core } = self;
        core.as_mut().inner.turn_to(hart);
        match core.as_mut().inner.begin() {
            Ok(()) => Begin::Active(Active { core }),
            Err(_) => Begin::Memory(Quiet { core }),
        }
    }

    /// Lets the run stand as it is, for good.
    pub fn abandon(&mut self)
        requires going { self.old.state.ending ≡ None }
        ensures value { self.new ≡ abandoned_of self.old }
    {
        self.core.as_mut().inner.abandon();
    }

    /// What has happened, the points at its end, each with what is left of its rescues, and the
    /// devices. Takes no memory.
    pub fn into_parts(self) -> (History, Points, Devices<S, T, P>)
        ensures history { result.0.entries ≡ self.history }
        ensures points { result.1 ≡ self.state.points }
        ensures devices { told S.end T.end P.end result.2 ≡ self.devices }
        ensures run { IsRun K.state result.0.entries }
        ensures reaches { self.state ≡ state_after K.state result.0.entries }
        ensures matches { DevicesMatch K.devices (told S.end T.end P.end result.2) 0
            (records_of_all result.0.entries) }
    {
        let Quiet { core } = self;
        let Core { inner, devices } = Box::into_inner(core);
        let (history, points) = inner.into_parts();
        (history, points, devices)
    }
}
