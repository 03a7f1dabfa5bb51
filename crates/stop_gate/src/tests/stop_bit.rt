use super::row::{close, enter, find_busy, find_inside, look, raise, seize, stand, three_passes};
use std::test::Fail;

#[test]
fn gate_stop_bit(rt: HostRuntime) -> Result<(), Fail> {
    let (gate, a, b, c) = three_passes(&rt, rt.alloc());
    let a = enter(&rt, &gate, a);
    look(&rt, &gate, 1, 0);
    let b = raise(&rt, &gate, b);
    let b = find_inside(&rt, &gate, b, 1);
    let c = stand(&rt, &gate, c, (1 << 63) + 1);
    let c = find_busy(&rt, &gate, c, (1 << 63) + 1);
    let _a = gate.leave(a);
    let b = seize(&rt, &gate, b);
    let _b = gate.lower(b);
    look(&rt, &gate, 0, 0);
    close(&rt, gate, c, 0);
    Ok(())
}
