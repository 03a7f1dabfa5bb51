//! How a gate is made.
ghost use Rattle.std.specs.Prelude.{◌≡◌, ◌-◌, ◌<◌, ◌≤◌, [], ◌∷◌, IfOk, IfErr, vec_len, vec_capacity, All};
ghost use Rattle.stop_gate.specs.Views.{with_less};
ghost use Rattle.stop_gate.specs.Passes.{IsOf, IsNewOf};

use crate::gate::Gate;
use crate::held::Held;
use crate::passes::Out;
use crate::rule::About;
use crate::steps;
use crate::word::word_of;
use atomic_table::{Refused, Table};
use std::alloc::Global;
use std::snapshot::Snapshot;

impl<C: Held> Gate<C> {
    /// Makes a gate that holds the value, and its passes: 1 to 64, which can make no others.
    /// Only memory can be lacking. The value comes back then.
    pub fn new(alloc: Global, held: C, passes: u8) -> Result<(Gate<C>, Vec<Out<C>>), C>
        requires within { (1 ≤ passes) × (passes ≤ 64) }
        ensures origin { IfOk result (λ r. r.0.origin ≡ C.origin held) }
        ensures counts { IfOk result (λ r. vec_len r.1 ≡ passes) }
        ensures passes { IfOk result (λ r. All (λ p. IsNewOf r.0 0 p) r.1.items) }
        ensures err { IfErr result (λ back. back ≡ held) }
    {
        let Ok(row) = Vec::with_capacity(alloc, usize::from(passes)) else {
            return Err(held);
        };
        let word = word_of(&held);
        let about = About {
            held: Snapshot::of(&held),
            passes: u64::from(passes),
        };
        let slots = one_slot(alloc, held)?;
        match Table::new(alloc, &[0, word], slots, &about) {
            Ok((table, seat)) => {
                let gate = Gate { table };
                let all = gate.deal(Out { seat }, row, passes);
                Ok((gate, all))
            }
            Err(Refused { mut slots }) => {
                let Some(Some(held)) = slots.pop() else {
                    unreachable!()
                };
                Err(held)
            }
        }
    }

    // All passes of a gate, the first of which may make the others.
    fn deal(&self, mut first: Out<C>, mut passes: Vec<Out<C>>, count: u8) -> Vec<Out<C>>
        requires some { 1 ≤ count }
        requires first { IsNewOf self.now (count - 1) first }
        requires room { (passes.items ≡ []) × (count ≤ vec_capacity passes) }
        ensures counts { vec_len result ≡ count }
        ensures passes { All (λ p. IsNewOf self.now 0 p) result.items }
    {
        for _ in 1..count {
            let pass = self.another(&mut first);
            passes.push_reserved(pass);
        }
        passes.push_reserved(first);
        passes
    }

    // A further pass, by a load of GATE.
    fn another(&self, pass: &mut Out<C>) -> Out<C>
        requires gate { IsOf self.now pass.old }
        requires spare { 0 < pass.old.view.spare }
        ensures pass { IsNewOf self.now 0 result }
        ensures same { pass.new.table ≡ pass.old.table }
        ensures less { pass.new.view ≡ with_less pass.old.view }
    {
        let seat = self
            .table
            .shared
            .split_seat::<steps::Another>(&mut pass.seat);
        Out { seat }
    }
}

// The slot's row with the value in it.
fn one_slot<C: Held>(alloc: Global, held: C) -> Result<Vec<Option<C>>, C>
    ensures ok { IfOk result (λ slots. slots.items ≡ Some held ∷ []) }
    ensures err { IfErr result (λ back. back ≡ held) }
{
    let Ok(mut slots) = Vec::with_capacity(alloc, 1) else {
        return Err(held);
    };
    slots.push_reserved(Some(held));
    Ok(slots)
}
