use super::row::Row;
use crate::{
    Alone, AloneTurning, Backing, Door, Enter, Gate, Inside, OpenDoor, Out, Raise, Seize, Stopping,
    Take, Turning,
};
use std::test::Fail;

fn may_be_shared<T: Sync>() {}

fn may_be_sent<T: Send>() {}

// It is enough that this is proved: threads share the gate, and each has its passes.
#[test]
fn gate_and_passes_cross_threads() -> Result<(), Fail> {
    may_be_shared::<Gate<Row>>();
    may_be_shared::<OpenDoor>();
    may_be_sent::<Gate<Row>>();
    may_be_sent::<Out<Row>>();
    may_be_sent::<Backing<Row>>();
    may_be_sent::<Inside<Row>>();
    may_be_sent::<Turning<Row>>();
    may_be_sent::<Stopping<Row>>();
    may_be_sent::<Alone<Row>>();
    may_be_sent::<AloneTurning<Row>>();
    may_be_sent::<Enter<Row>>();
    may_be_sent::<Raise<Row>>();
    may_be_sent::<Seize<Row>>();
    may_be_sent::<Take<Row>>();
    OpenDoor.ask(0);
    Ok(())
}
