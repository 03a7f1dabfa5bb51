ghost use Rattle.stop_gate.specs.Passes.{IsOf};

use super::row::{
    Row, close, enter, find_busy, find_held, find_inside, lengthen, look, raise, seize, stand,
    take, three_passes,
};
use crate::{Alone, Gate, Inside, Out};
use std::process::Abort;
use std::test::Fail;

const STOP: u64 = 1 << 63;

// A turn of a pass that is inside, while another stops.
fn turn_inside(rt: &impl Abort, gate: &Gate<Row>, pass: Inside<Row>) -> Out<Row>
    requires { IsOf gate.now pass }
    ensures { IsOf gate.now result }
{
    let (turn, row) = take(rt, gate, pass);
    look(rt, gate, STOP + 1, 1);
    let pass = gate.give(turn, lengthen(rt, row, 1));
    look(rt, gate, STOP + 1, 2);
    gate.leave(pass)
}

// A turn of the pass that is alone.
fn turn_alone(rt: &impl Abort, gate: &Gate<Row>, pass: Alone<Row>) -> Out<Row>
    requires { IsOf gate.now pass }
    ensures { IsOf gate.now result }
{
    let (turn, row) = gate.take_alone(pass);
    look(rt, gate, STOP, 3);
    let pass = gate.give_alone(turn, lengthen(rt, row, 2));
    look(rt, gate, STOP, 4);
    gate.lower(pass)
}

// Two passes inside, of which one finds the value out.
fn turn_beside(rt: &impl Abort, gate: &Gate<Row>, a: Out<Row>, c: Out<Row>) -> Out<Row>
    requires { IsOf gate.now a × IsOf gate.now c }
    ensures { IsOf gate.now result }
{
    let a = enter(rt, gate, a);
    let c = enter(rt, gate, c);
    let (turn, row) = take(rt, gate, a);
    let c = find_held(rt, gate, c, 5);
    let a = gate.give(turn, row);
    let _a = gate.leave(a);
    gate.leave(c)
}

#[test]
fn gate_turns(rt: HostRuntime) -> Result<(), Fail> {
    let (gate, a, b, c) = three_passes(&rt, rt.alloc());
    let a = enter(&rt, &gate, a);
    look(&rt, &gate, 1, 0);
    let b = raise(&rt, &gate, b);
    let b = find_inside(&rt, &gate, b, 1);
    let c = stand(&rt, &gate, c, STOP + 1);
    let c = find_busy(&rt, &gate, c, STOP + 1);
    let a = turn_inside(&rt, &gate, a);
    let b = seize(&rt, &gate, b);
    let _b = turn_alone(&rt, &gate, b);
    look(&rt, &gate, 0, 4);
    let c = turn_beside(&rt, &gate, a, c);
    gate.rule();
    close(&rt, gate, c, 2);
    Ok(())
}
