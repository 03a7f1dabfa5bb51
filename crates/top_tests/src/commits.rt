//! Stretches of register acts, by the machine's own calls.
ghost use Rattle.std.specs.Prelude.{◌≡◌, ◌<◌, [], true, false, length, None, IfOk, IfSome};
ghost use Rattle.guest_words.specs.Harts.{is_ready};
ghost use Rattle.guest_words.specs.Image.{IsLoadList};
ghost use Rattle.guest_words.specs.Start.{start_of};
ghost use Rattle.edge_ports.specs.InMemory.{port_end, sink_end, source_end};
ghost use Rattle.edge_ports.specs.Seen.{seen};
ghost use Rattle.hart_step.specs.Registers.{IsTextOf};
ghost use Rattle.machine_core.specs.Commits.{IsStretchFrom};
ghost use Rattle.machine_core.specs.Machine.{AllOpen};

use crate::driven::{Driven, NoDevices, devices, goes_on, step};
use crate::image::image;
use crate::replay::loaded;
use guest_words::{Hart, HartState, Image, Points};
use hart_step::{Text, run_registers};
use machine_core::{Commit, Limits, Mode, Origin, Quiet};
use run_history::Entry;
use std::alloc::{AllocError, Global};
use std::marker::Brand;
use std::process::Abort;
use std::test::Fail;

// lui x8,0x20; lui x10,0x10; addi x10,x10,0x100; addi x11,x0,0; addi x17,x0,220; ecall
// bne x10,x0,0x10034; lr.w x5,(x8)
// 0x10020: addi x6,x0,1; addi x7,x0,2; add x28,x6,x7; addi x6,x6,1; jal x0,0x10020
// 0x10034: addi x29,x0,5; sb x0,0(x8); lbu x6,0(x8)
const TWO_HARTS: [u32; 16] = [
    0x00020437, 0x00010537, 0x10050513, 0x00000593, 0x0dc00893, 0x00000073, 0x00051e63, 0x100422af,
    0x00100313, 0x00200393, 0x00730e33, 0x00130313, 0xff1ff06f, 0x00500e93, 0x00040023, 0x00044303,
];

/// Two steps are left where the last stretch is tried.
const LIMITS: Limits = Limits {
    harts: 2,
    budget: 16,
    mode: Mode::Shared,
};

/// Where a stretch began, where it came to, and by how many acts.
#[derive(Drop)]
struct Made {
    base: Hart,
    after: Hart,
    count: u32,
}

/// A stretch of a hart that is ready, of at most so many acts.
fn make<K: Origin>(
    machine: &Driven<K>,
    text: &Text,
    points: &Points,
    hart: u8,
    most: u32,
) -> Option<Made>
    requires hart { hart < length K.state.slots }
    requires text { IsTextOf text.now K.state.memory }
    requires points { points.now ≡ K.state.points }
    ensures ready { IfSome result (λ made. is_ready made.base.state ≡ true) }
    ensures made { IfSome result (λ made. IsStretchFrom K.state made.base made.after made.count) }
{
    let base = machine.stretch_base(hart);
    if base.regs[0] != 0 {
        return None;
    }
    let HartState::Ready = base.state else {
        return None;
    };
    let (after, count) = run_registers(base, text, points, most);
    Some(Made { base, after, count })
}

/// That the last of so many entries is a stretch of three acts of hart 1, after so many steps.
fn assert_last<K: Origin>(rt: &impl Abort, machine: &Driven<K>, length: usize, steps: u64) {
    assert_eq!(rt; machine.length(), length);
    assert_eq!(rt; machine.executed(), steps);
    assert!(rt;
        matches!(
            machine.history().items().last(),
            Some(Entry::Ran { hart: 1, count: 3 })
        )
    );
}

/// Hart 0 makes an act meanwhile, which touches nothing of hart 1.
fn committed<K: Origin>(
    rt: &impl Abort,
    machine: &mut Driven<K>,
    text: &Text,
    points: &Points,
) -> Result<(), Fail>
    requires harts { length K.state.slots ≡ 2 }
    requires text { IsTextOf text.now K.state.memory }
    requires points { points.now ≡ K.state.points }
    requires going { machine.old.state.ending ≡ None }
    requires kept { machine.old.abandoned ≡ false }
    ensures going { IfOk result (λ done. machine.new.state.ending ≡ None) }
    ensures kept { IfOk result (λ done. machine.new.abandoned ≡ false) }
{
    let Some(Made { base, after, count }) = make(machine, text, points, 1, 3) else {
        return Err(Fail::new("no stretch"));
    };
    assert_eq!(rt; count, 3);
    assert_eq!(rt; after.pc, 0x1002c);
    assert_eq!(rt; after.regs[28], 3);
    step(rt, machine, 0, 1)?;
    assert_eq!(rt; machine.commit(1, base, after, count), Commit::Committed);
    assert_eq!(rt; machine.stretch_base(1), after);
    assert_last(rt, machine, 4, 13);
    goes_on(machine)
}

/// Hart 0 stores meanwhile to what hart 1 has reserved. What hart 0 does next is a load, which no
/// stretch makes.
fn moved<K: Origin>(
    rt: &impl Abort,
    machine: &mut Driven<K>,
    text: &Text,
    points: &Points,
) -> Result<(), Fail>
    requires harts { length K.state.slots ≡ 2 }
    requires text { IsTextOf text.now K.state.memory }
    requires points { points.now ≡ K.state.points }
    requires going { machine.old.state.ending ≡ None }
    requires kept { machine.old.abandoned ≡ false }
    ensures going { IfOk result (λ done. machine.new.state.ending ≡ None) }
    ensures kept { IfOk result (λ done. machine.new.abandoned ≡ false) }
{
    let Some(Made { base, after, count }) = make(machine, text, points, 1, 2) else {
        return Err(Fail::new("no stretch"));
    };
    assert_eq!(rt; count, 2);
    step(rt, machine, 0, 1)?;
    let kept = Hart {
        reservation: None,
        ..base
    };
    assert!(rt; base.reservation.is_some());
    assert_eq!(rt;
        machine.commit(1, base, after, count),
        Commit::Moved { kept }
    );
    assert_eq!(rt; machine.stretch_base(1), kept);
    assert_eq!(rt; machine.length(), 5);
    match make(machine, text, points, 0, 3) {
        Some(Made { count: 0, .. }) => goes_on(machine),
        _ => Err(Fail::new("a load in a stretch")),
    }
}

/// Two steps are left.
fn short<K: Origin>(
    rt: &impl Abort,
    machine: &mut Driven<K>,
    text: &Text,
    points: &Points,
) -> Result<(), Fail>
    requires harts { length K.state.slots ≡ 2 }
    requires text { IsTextOf text.now K.state.memory }
    requires points { points.now ≡ K.state.points }
    requires going { machine.old.state.ending ≡ None }
    requires kept { machine.old.abandoned ≡ false }
{
    let Some(Made { base, after, count }) = make(machine, text, points, 1, 3) else {
        return Err(Fail::new("no stretch"));
    };
    assert_eq!(rt; count, 3);
    assert_eq!(rt;
        machine.commit(1, base, after, count),
        Commit::Short { left: 2 }
    );
    assert_eq!(rt; machine.stretch_base(1), base);
    assert_eq!(rt; machine.length(), 5);
    Ok(())
}

fn make_stretches<K: Origin>(rt: &impl Abort, machine: Driven<K>) -> Result<(), Fail>
    requires harts { length K.state.slots ≡ 2 }
    requires going { machine.state.ending ≡ None }
    requires kept { machine.abandoned ≡ false }
{
    let mut machine = machine;
    let text = machine.text()?;
    let points = machine.points()?;
    step(rt, &mut machine, 0, 7)?;
    step(rt, &mut machine, 1, 2)?;
    committed(rt, &mut machine, &text, &points)?;
    moved(rt, &mut machine, &text, &points)?;
    short(rt, &mut machine, &text, &points)
}

fn start<K: Origin>(
    rt: &impl Abort,
    alloc: Global,
    image: &Image,
    points: &Points,
    devices: NoDevices,
) -> Result<(), Fail>
    requires loads { IsLoadList image.now.loads }
    requires open { AllOpen (seen source_end sink_end port_end devices) }
    requires ports { devices.ports.items ≡ [] }
    requires state { K.state ≡ start_of image.now points.now 2 0 16 }
    requires devices { K.devices ≡ seen source_end sink_end port_end devices }
    requires mode { K.mode ≡ Mode.Shared }
{
    match Quiet::start(alloc, image, points, LIMITS, devices) {
        Ok(machine) => make_stretches::<K>(rt, machine),
        Err(_) => Err(AllocError.into()),
    }
}

fn start_two(rt: &impl Abort, alloc: Global, image: &Image) -> Result<(), Fail>
    requires loads { IsLoadList image.now.loads }
{
    let points = Points::of(Vec::new(alloc));
    start::<Brand>(rt, alloc, image, &points, devices(alloc))
}

#[test]
fn stretch_commits(rt: HostRuntime) -> Result<(), Fail> {
    let alloc = rt.alloc();
    let file = image(alloc, &TWO_HARTS, Some(&[]))?;
    start_two(&rt, alloc, &loaded(alloc, &file)?)
}
