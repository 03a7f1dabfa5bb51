ghost use Rattle.std.specs.Prelude.{◌≡◌, ◌<◌, ◌≤◌, true, false, Some, None};
ghost use Rattle.guest_words.specs.declared.hart.Hart.{Hart};
ghost use Rattle.guest_words.specs.Effects.{class_of};
ghost use Rattle.guest_words.specs.Instructions.{NamesRegisters};
ghost use Rattle.run_history.specs.After.{ran};
ghost use Rattle.run_history.specs.Legal.{can_run};
ghost use Rattle.hart_step.specs.InPlace.{HasZero};
ghost use Rattle.hart_step.specs.Registers.{after_class, register_next, registers};
ghost use Rattle.hart_step.specs.Stretches.{IsStretch};

use crate::did::Did;
use crate::engine::Engine;
use crate::look::arrival;
use crate::register_rows::{branch, jump, register};
use crate::registers::{go_past, reg};
use crate::text::Text;
use guest_words::{Class, Hart, Inst, Points};
use rv_word::word_of;

/// Makes register acts of a ready hart without frames, at most so many and as many as it can, and
/// answers the hart after them and their number: instructions that look at no memory, up to the
/// first arrival, fault or other instruction. Takes no memory.
pub fn run_registers(base: Hart, text: &Text, points: &Points, most: u32) -> (Hart, u32)
    requires zero { HasZero base }
    ensures value { registers text.now points.now base result.1 ≡ Some result.0 }
    ensures within { result.1 ≤ most }
    ensures stops { result.1 < most → register_next text.now points.now result.0 ≡ None }
    ensures zero { HasZero result.0 }
{
    let mut hart = base;
    for count in 0..most {
        if !go_on(&mut hart, text, points) {
            return (hart, count);
        }
    }
    (hart, most)
}

// One register act, where that is the next one.
#[inline(always)]
fn go_on(hart: &mut Hart, text: &Text, points: &Points) -> bool
    requires zero { HasZero hart.old }
    ensures after { result ≡ true → register_next text.now points.now hart.old ≡ Some hart.new }
    ensures stops { result ≡ false → register_next text.now points.now hart.old ≡ None }
    ensures same { result ≡ false → hart.new ≡ hart.old }
    ensures zero { HasZero hart.new }
{
    match arrival(points, 0, hart) {
        Some(_) => false,
        None => match text.inst_at(hart.pc) {
            Some(inst) => carry_out(hart, &inst),
            None => false,
        },
    }
}

// Carries out an instruction that looks at no memory.
#[inline(always)]
fn carry_out(hart: &mut Hart, inst: &Inst) -> bool
    requires registers { NamesRegisters inst.now }
    requires zero { HasZero hart.old }
    ensures after { result ≡ true
        → after_class (class_of inst.now.op) hart.old inst.now ≡ Some hart.new }
    ensures stops { result ≡ false
        → after_class (class_of inst.now.op) hart.old inst.now ≡ None }
    ensures same { result ≡ false → hart.new ≡ hart.old }
    ensures zero { HasZero hart.new }
{
    let a = reg(hart, inst.rs1);
    let b = reg(hart, inst.rs2);
    let i = word_of(i64::from(inst.imm));
    let did = match inst.op.class() {
        Class::Register => register(hart, inst, inst.op, a, b, i),
        Class::Branch => branch(hart, inst, inst.op, a, b, i),
        Class::Jump => jump(hart, inst, inst.op, a, i),
        Class::Fence => {
            go_past(hart);
            Did::Went
        }
        _ => Did::Called,
    };
    matches!(did, Did::Went)
}

impl Engine {
    /// Register acts of a ready hart that were made beside the run become acts of it: the hart
    /// after them stands in its slot, and their steps are counted. Makes no act again, and takes
    /// no memory.
    pub fn stretch(&mut self, hart: u8, after: Hart, count: u32)
        requires some { 1 ≤ count }
        requires stretch { (base : Hart) × IsStretch self.old.state hart base after count }
        ensures state { self.new.state ≡ ran self.old.state hart count }
        ensures goes { can_run self.old.state hart count ≡ true }
        ensures spare { self.new.spare ≡ self.old.spare }
    {
        self.slots.put(hart, after);
        self.steps += u64::from(count);
    }
}
