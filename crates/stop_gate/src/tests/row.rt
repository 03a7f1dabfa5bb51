// A value of some length that is never over, and calls that have to succeed.
ghost use Rattle.std.specs.Prelude.{◌≡◌, ◌≤◌, false, IsFalse};
ghost use Rattle.stop_gate.specs.Passes.{IsOf};

use crate::{Alone, Enter, Gate, Held, Inside, Out, Raise, Seize, Stopping, Take, Turning};
use std::alloc::Global;
use std::process::Abort;

#[derive(Drop)]
pub struct Row {
    pub length: u32,
}

impl Held for Row {
    type Origin = ();

    ghost length = { λ r. r.length };

    ghost over = { λ _. false };

    ghost origin = { λ _. tt };

    fn length(&self) -> u64 {
        u64::from(self.length)
    }

    fn over(&self) -> bool {
        false
    }
}

// The value at a length that is no less.
pub fn lengthen(rt: &impl Abort, row: Row, length: u32) -> Row
    ensures { row.length ≤ result.length }
{
    assert!(rt; row.length <= length);
    Row { length }
}

pub fn three_passes(rt: &impl Abort, alloc: Global) -> (Gate<Row>, Out<Row>, Out<Row>, Out<Row>)
    ensures { IsOf result.0 result.1 × IsOf result.0 result.2 × IsOf result.0 result.3 }
{
    let Ok((gate, mut passes)) = Gate::new(alloc, Row { length: 0 }, 3) else {
        panic!(rt; "no memory")
    };
    let (Some(a), Some(b), Some(c)) = (passes.pop(), passes.pop(), passes.pop()) else {
        panic!(rt; "fewer than three passes")
    };
    assert!(rt; passes.is_empty());
    (gate, a, b, c)
}

pub fn enter(rt: &impl Abort, gate: &Gate<Row>, pass: Out<Row>) -> Inside<Row>
    requires { IsOf gate.now pass }
    ensures { IsOf gate.now result }
{
    let Enter::Inside(pass) = gate.try_enter(pass) else {
        panic!(rt; "the stop bit stands")
    };
    pass
}

// A pass that finds the stop bit in this word, and goes back.
pub fn stand(rt: &impl Abort, gate: &Gate<Row>, pass: Out<Row>, found: u64) -> Out<Row>
    requires { IsOf gate.now pass }
    ensures { IsOf gate.now result }
{
    let Enter::Standing { word, back } = gate.try_enter(pass) else {
        panic!(rt; "no stop bit stands")
    };
    assert_eq!(rt; word, found);
    gate.back(back)
}

pub fn raise(rt: &impl Abort, gate: &Gate<Row>, pass: Out<Row>) -> Stopping<Row>
    requires { IsOf gate.now pass }
    ensures { IsOf gate.now result }
{
    let Raise::Stopping(pass) = gate.raise(pass) else {
        panic!(rt; "the stop bit stands")
    };
    pass
}

// A pass that finds the stop bit in this word, and doesn't raise it.
pub fn find_busy(rt: &impl Abort, gate: &Gate<Row>, pass: Out<Row>, found: u64) -> Out<Row>
    requires { IsOf gate.now pass }
    ensures { IsOf gate.now result }
{
    let Raise::Busy { word, pass } = gate.raise(pass) else {
        panic!(rt; "no stop bit stands")
    };
    assert_eq!(rt; word, found);
    pass
}

pub fn seize(rt: &impl Abort, gate: &Gate<Row>, pass: Stopping<Row>) -> Alone<Row>
    requires { IsOf gate.now pass }
    ensures { IsOf gate.now result }
{
    let Seize::Alone(pass) = gate.seize(pass) else {
        panic!(rt; "a pass counts")
    };
    pass
}

// A pass that finds so many inside.
pub fn find_inside(
    rt: &impl Abort,
    gate: &Gate<Row>,
    pass: Stopping<Row>,
    found: u64,
) -> Stopping<Row>
    requires { IsOf gate.now pass }
    ensures { IsOf gate.now result }
{
    let Seize::NotYet { inside, pass } = gate.seize(pass) else {
        panic!(rt; "no pass counts")
    };
    assert_eq!(rt; inside, found);
    pass
}

pub fn take(rt: &impl Abort, gate: &Gate<Row>, pass: Inside<Row>) -> (Turning<Row>, Row)
    requires { IsOf gate.now pass }
    ensures gate { IsOf gate.now result.0 }
    ensures taken { result.0.view.taken ≡ result.1.length }
    ensures over { IsFalse result.0.view.over }
{
    let Take::Taken { turn, held } = gate.try_take(pass) else {
        panic!(rt; "the value is out")
    };
    (turn, held)
}

// A pass that finds the value out, by this word.
pub fn find_held(rt: &impl Abort, gate: &Gate<Row>, pass: Inside<Row>, found: u64) -> Inside<Row>
    requires { IsOf gate.now pass }
    ensures { IsOf gate.now result }
{
    let Take::Held { word, pass } = gate.try_take(pass) else {
        panic!(rt; "the value is at home")
    };
    assert_eq!(rt; word, found);
    pass
}

// Compares the two words.
pub fn look(rt: &impl Abort, gate: &Gate<Row>, word_gate: u64, word_turn: u64) {
    assert_eq!(rt; gate.table.shared.peek(0), word_gate);
    assert_eq!(rt; gate.table.shared.peek(1), word_turn);
}

pub fn close(rt: &impl Abort, gate: Gate<Row>, pass: Out<Row>, length: u32)
    requires { IsOf gate pass }
{
    let Some(row) = gate.close(pass) else {
        panic!(rt; "the value is out")
    };
    assert_eq!(rt; row.length, length);
}
