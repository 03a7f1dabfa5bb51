ghost use Rattle.std.specs.Prelude.{◌≡◌, ◌<◌, length, slice_get, IfSome, IfOk, IsTrue};
ghost use Rattle.guest_words.specs.Harts.{holds};

use crate::{Harts, amo, holds};
use guest_words::{Class, Hart, HartState, MemoryWant, Op, Reserved, Width};
use std::alloc::Global;
use std::test::Fail;

const OLDS: [u64; 2] = [0xffff_ffff_8000_0000, 1];

const OPERANDS: [u64; 2] = [0xffff_ffff_ffff_f800, 0xffff_fffe_ffff_ffff];

/// What each row stores of the olds and operands above, as qemu-riscv64 7.2.22 does.
const STORED: [(Op, [u64; 2]); 18] = [
    (Op::AmoswapW, [0xffff_f800, 0xffff_ffff]),
    (Op::AmoaddW, [0x7fff_f800, 0]),
    (Op::AmoxorW, [0x7fff_f800, 0xffff_fffe]),
    (Op::AmoandW, [0x8000_0000, 1]),
    (Op::AmoorW, [0xffff_f800, 0xffff_ffff]),
    (Op::AmominW, [0x8000_0000, 0xffff_ffff]),
    (Op::AmomaxW, [0xffff_f800, 1]),
    (Op::AmominuW, [0x8000_0000, 1]),
    (Op::AmomaxuW, [0xffff_f800, 0xffff_ffff]),
    (Op::AmoswapD, [0xffff_ffff_ffff_f800, 0xffff_fffe_ffff_ffff]),
    (Op::AmoaddD, [0xffff_ffff_7fff_f800, 0xffff_ffff_0000_0000]),
    (Op::AmoxorD, [0x7fff_f800, 0xffff_fffe_ffff_fffe]),
    (Op::AmoandD, [0xffff_ffff_8000_0000, 1]),
    (Op::AmoorD, [0xffff_ffff_ffff_f800, 0xffff_fffe_ffff_ffff]),
    (Op::AmominD, [0xffff_ffff_8000_0000, 0xffff_fffe_ffff_ffff]),
    (Op::AmomaxD, [0xffff_ffff_ffff_f800, 1]),
    (Op::AmominuD, [0xffff_ffff_8000_0000, 1]),
    (Op::AmomaxuD, [0xffff_ffff_ffff_f800, 0xffff_fffe_ffff_ffff]),
];

fn stored(op: Op, case: usize) -> Option<u64>
    requires { case < 2 }
{
    match op.class() {
        Class::Atomic {
            width: Width::Four | Width::Eight,
        } => Some(amo(op, OLDS[case], OPERANDS[case])),
        _ => None,
    }
}

#[test]
fn atomic_operations(rt: HostRuntime) {
    for &(op, [first, second]) in &STORED {
        assert_eq!(rt; stored(op, 0), Some(first));
        assert_eq!(rt; stored(op, 1), Some(second));
    }
}

const WORD: u64 = 0x20000;

fn hart(tid: u32) -> Hart {
    Hart {
        pc: 0x10000,
        regs: [0; 32],
        arrived: false,
        reservation: None,
        state: HartState::Ready,
        tid,
        clear: 0,
    }
}

fn two_harts(alloc: Global) -> Result<Harts, MemoryWant>
    ensures { IfOk result (λ harts. length harts ≡ 2) }
{
    let mut items = Vec::new(alloc);
    items.push(hart(1))?;
    items.push(hart(2))?;
    Ok(Harts::of(items))
}

/// LR.W of the hart in slot 0.
fn reserve(harts: &mut Harts)
    requires { 0 < length harts.old }
    ensures { IfSome (slice_get harts.new 0) (λ hart. IsTrue (holds hart WORD Width.Four)) }
{
    harts.hart_mut(0).reservation = Some(Reserved {
        address: WORD,
        width: Width::Four,
    });
}

/// Two harts, after an LR.W of the one in slot 0.
fn reserved(alloc: Global) -> Result<Harts, MemoryWant> {
    let mut harts = two_harts(alloc)?;
    reserve(&mut harts);
    Ok(harts)
}

/// Whether an SC of the hart in slot 0 would store.
fn is_reserved(harts: &Harts, width: Width) -> bool {
    match harts.items() {
        [first, ..] => holds(first, WORD, width),
        [] => false,
    }
}

#[test]
fn reservations(rt: HostRuntime) -> Result<(), Fail> {
    let mut harts = reserved(rt.alloc())?;
    assert!(rt; is_reserved(&harts, Width::Four) && !is_reserved(&harts, Width::Eight));
    harts.touched(WORD + 4, 8);
    assert!(rt; is_reserved(&harts, Width::Four));
    harts.touched(WORD + 3, 1);
    assert!(rt; !is_reserved(&harts, Width::Four));
    Ok(())
}

#[test]
fn entering_ends_reservations(rt: HostRuntime) -> Result<(), Fail> {
    let mut harts = reserved(rt.alloc())?;
    let copy = harts.copy(rt.alloc())?;
    harts.clear_all();
    assert!(rt; is_reserved(&copy, Width::Four) && !is_reserved(&harts, Width::Four));
    Ok(())
}

/// Three slots, of which the second got its hart after the harts were kept.
#[test]
fn kept_harts_are_put_back(rt: HostRuntime) -> Result<(), Fail> {
    let mut harts = Harts::start(rt.alloc(), hart(1), 3)?;
    let kept = harts.keep(rt.alloc())?;
    *harts.hart_mut(1) = hart(2);
    assert_eq!(rt; harts.used(), 2);
    harts.put_back(kept);
    assert!(rt; harts.items() == [hart(1), Hart::EMPTY, Hart::EMPTY].as_slice());
    assert_eq!(rt; harts.used(), 1);
    Ok(())
}
