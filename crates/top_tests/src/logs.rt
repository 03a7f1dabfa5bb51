//! The log of an open call, by the machine's own calls.
ghost use Rattle.std.specs.Prelude.{◌≡◌, [], false, length, None};
ghost use Rattle.guest_words.specs.Image.{IsLoadList};
ghost use Rattle.guest_words.specs.Start.{start_of};
ghost use Rattle.edge_ports.specs.InMemory.{port_end, sink_end, source_end};
ghost use Rattle.edge_ports.specs.Seen.{seen};
ghost use Rattle.machine_core.specs.Machine.{AllOpen};
ghost use Rattle.machine_core.specs.QuietSteps.{stepped_of, HasArrived};

use crate::driven::{Driven, NoDevices, devices, step};
use guest_words::{Image, Points};
use machine_core::{Begin, Limits, Mode, Next, Origin, Quiet, Stepped};
use std::alloc::{AllocError, Global};
use std::marker::Brand;
use std::process::Abort;
use std::test::Fail;

const LIMITS: Limits = Limits {
    harts: 1,
    budget: 9,
    mode: Mode::Lone,
};

/// The call that begins writes two bytes before its fault.
fn assert_notes<K: Origin>(rt: &impl Abort, machine: Driven<K>) -> Result<(), Fail>
    requires lone { K.mode ≡ Mode.Lone }
    requires going { machine.state.ending ≡ None }
    requires kept { machine.abandoned ≡ false }
    requires arrived { HasArrived (stepped_of machine.state 0) }
{
    let Begin::Active(call) = machine.begin_lone(0) else {
        return Err(AllocError.into());
    };
    assert_eq!(rt; call.frames(), 1);
    assert_eq!(rt; call.notes(0).len(), 0);
    let Next::Active(call) = call.step() else {
        return Err(AllocError.into());
    };
    assert_eq!(rt; call.frames(), 1);
    assert_eq!(rt; call.notes(0).len(), 2);
    Ok(())
}

fn arrive<K: Origin>(rt: &impl Abort, machine: Driven<K>) -> Result<(), Fail>
    requires lone { K.mode ≡ Mode.Lone }
    requires harts { length K.state.slots ≡ 1 }
    requires going { machine.state.ending ≡ None }
    requires kept { machine.abandoned ≡ false }
{
    let mut machine = machine;
    step(rt, &mut machine, 0, 2)?;
    match machine.step(0, 64)? {
        Stepped::Arrived(_point) => assert_notes(rt, machine),
        _ => Err(Fail::new("no arrival")),
    }
}

fn start<K: Origin>(
    rt: &impl Abort,
    alloc: Global,
    image: &Image,
    points: &Points,
    devices: NoDevices,
) -> Result<(), Fail>
    requires loads { IsLoadList image.now.loads }
    requires open { AllOpen (seen source_end sink_end port_end devices) }
    requires ports { devices.ports.items ≡ [] }
    requires state { K.state ≡ start_of image.now points.now 1 0 9 }
    requires devices { K.devices ≡ seen source_end sink_end port_end devices }
    requires mode { K.mode ≡ Mode.Lone }
{
    match Quiet::start(alloc, image, points, LIMITS, devices) {
        Ok(machine) => arrive::<K>(rt, machine),
        Err(_) => Err(AllocError.into()),
    }
}

/// That a byte is noted each time it is written under a point: two acts lead to the point, and four
/// go on under it, of which two write.
pub fn assert_notes_of(
    rt: &impl Abort,
    alloc: Global,
    image: &Image,
    points: &Points,
) -> Result<(), Fail>
    requires loads { IsLoadList image.now.loads }
{
    start::<Brand>(rt, alloc, image, points, devices(alloc))
}
