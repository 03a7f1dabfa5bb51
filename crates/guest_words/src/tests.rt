use crate::{
    Bytes, Class, ElfFault, FaultName, Frame, Frames, Hart, HartState, Kind, Load, Loads,
    MemoryWant, Name, Op, Point, PointRef, Points, Record, Ret, Rights, Slot, Way, Width,
};
use std::alloc::Global;
use std::test::Fail;

const POINT: PointRef = PointRef { entry: 0x10010 };

const FRAME: Frame = Frame {
    point: POINT,
    ra: 0x10004,
    sp: 0x2000,
};

#[test]
fn bytes_are_a_list(rt: HostRuntime) -> Result<(), Fail> {
    let bytes = Bytes::of([1, 2, 3].to_vec(rt.alloc())?);
    let copy = bytes.copy(rt.alloc())?;
    assert!(rt; bytes.items() == [1, 2, 3].as_slice());
    assert!(rt; copy.into_vec().as_slice() == [1, 2, 3].as_slice());
    Ok(())
}

#[test]
fn a_name_is_a_text(rt: HostRuntime) -> Result<(), Fail> {
    let name = Name::of(String::from_str(rt.alloc(), "handle")?);
    assert!(rt; name.items() == "handle");
    Ok(())
}

#[test]
fn loads_are_a_list(rt: HostRuntime) -> Result<(), Fail> {
    let mut items = Vec::new(rt.alloc());
    items.push(Load {
        address: 0x10000,
        size: 12,
        bytes: Bytes::of(Vec::new(rt.alloc())),
        rights: Rights {
            read: true,
            write: false,
            exec: true,
        },
    })?;
    let loads = Loads::of(items);
    assert!(rt; loads.items().len() == 1);
    Ok(())
}

#[test]
fn frames_open_and_close(rt: HostRuntime) -> Result<(), Fail> {
    let mut frames = Frames::new(rt.alloc());
    frames.push(FRAME)?;
    frames.push(Frame {
        ra: 0x10024,
        ..FRAME
    })?;
    let copy = Frames::of(frames.items().to_vec(rt.alloc())?);
    frames.truncate(1);
    assert!(rt; frames.items() == [FRAME].as_slice());
    assert!(rt; copy.items().len() == 2);
    Ok(())
}

#[test]
fn a_slot_is_copied(rt: HostRuntime) -> Result<(), Fail> {
    let hart = Hart {
        pc: 0x10000,
        state: HartState::Ready,
        tid: 1,
        ..Hart::EMPTY
    };
    let mut frames = Frames::new(rt.alloc());
    frames.push(FRAME)?;
    let copy = Slot { hart, frames }.copy(rt.alloc())?;
    assert!(rt; copy.hart == hart);
    assert!(rt; copy.frames.items() == [FRAME].as_slice());
    Ok(())
}

#[test]
fn a_record_is_copied(rt: HostRuntime) -> Result<(), Fail> {
    let call = Record {
        port: 1,
        way: Way::Write,
        asked: 2,
        answer: 2,
        bytes: Bytes::of([104, 105].to_vec(rt.alloc())?),
    };
    let copy = call.copy(rt.alloc())?;
    assert!(rt; copy.answer == 2 && copy.bytes.items() == b"hi".as_slice());
    Ok(())
}

fn two_points(alloc: Global) -> Result<Points, MemoryWant> {
    let codes = [Ret::Code(7); 8];
    let mut items = Vec::new(alloc);
    items.push(Point {
        entry: 0x10000,
        codes,
        kind: Kind::Off,
        left: None,
    })?;
    items.push(Point {
        entry: 0x10010,
        codes,
        kind: Kind::Blocking,
        left: Some(1),
    })?;
    Ok(Points::of(items))
}

#[test]
fn an_active_point_is_found(rt: HostRuntime) -> Result<(), Fail> {
    let points = two_points(rt.alloc())?.copy(rt.alloc())?;
    assert!(rt; points.items().len() == 2);
    assert!(rt; points.active_at(0x10010) == Some(POINT));
    assert!(rt; points.active_at(0x10000) == None);
    assert!(rt; points.active_at(0x10014) == None);
    Ok(())
}

#[test]
fn a_point_is_spent(rt: HostRuntime) -> Result<(), Fail> {
    let mut points = two_points(rt.alloc())?;
    points.spend(0x10010);
    assert!(rt; points.active_at(0x10010) == None);
    assert!(rt; points.code(0x10010, FaultName::Illegal) == Ret::Code(7));
    assert!(rt; !points.has_loose());
    Ok(())
}

#[test]
fn names_are_printed(rt: HostRuntime) {
    assert!(rt; FaultName::BlockedInPoint.name() == "blocked-in-point");
    assert!(rt; ElfFault::FileType.name() == "type");
    assert!(rt; Op::Lhu.class() == Class::Load { width: Width::Two });
}
