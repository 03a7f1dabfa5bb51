ghost use Rattle.std.specs.Prelude.{false};

use crate::{Enter, Gate, Held, Take};
use std::alloc::Global;
use std::process::Abort;
use std::sync::atomic::AtomicU64;
use std::sync::atomic::Ordering::SeqCst;
use std::test::Fail;

// A value that counts its drops.
struct Counted<'a> {
    drops: &'a AtomicU64,
}

impl Drop for Counted<'_> {
    fn drop(self) {
        self.drops.fetch_add(1, SeqCst);
        let Counted { drops: _ } = self;
    }
}

impl<'a> Held for Counted<'a> {
    type Origin = ();

    ghost length = { λ _. 0 };

    ghost over = { λ _. false };

    ghost origin = { λ _. tt };

    fn length(&self) -> u64 {
        0
    }

    fn over(&self) -> bool {
        false
    }
}

// The value goes out of its gate and back, and then with the gate.
fn turn_once(rt: &impl Abort, alloc: Global, drops: &AtomicU64) {
    let Ok((gate, mut passes)) = Gate::new(alloc, Counted { drops }, 1) else {
        panic!(rt; "no memory")
    };
    let Some(pass) = passes.pop() else {
        panic!(rt; "no pass")
    };
    let Enter::Inside(pass) = gate.try_enter(pass) else {
        panic!(rt; "the stop bit stands")
    };
    let Take::Taken { turn, held } = gate.try_take(pass) else {
        panic!(rt; "the value is out")
    };
    let _pass = gate.give(turn, held);
    assert_eq!(rt; drops.load(SeqCst), 0);
}

#[test]
fn value_in_the_slot_is_dropped_once(rt: HostRuntime) -> Result<(), Fail> {
    let drops = AtomicU64::new(0);
    turn_once(&rt, rt.alloc(), &drops);
    assert_eq!(rt; drops.load(SeqCst), 1);
    Ok(())
}
