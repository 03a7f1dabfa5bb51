ghost use Rattle.std.specs.Prelude.{◌≡◌, ◌<◌, ◌*◌, ◌^◌};
ghost use Rattle.guest_words.specs.Widths.{bytes_in};
ghost use Rattle.guest_words.specs.Effects.{class_of, loaded_of};
ghost use Rattle.guest_words.specs.Word.{sign_extended, word_of};
ghost use Rattle.guest_words.specs.HartAct.{access_place, first, load_act, store_act, second};
ghost use Rattle.guest_words.specs.Instructions.{NamesRegisters};
ghost use Rattle.guest_memory.specs.Text.{SameText};
ghost use Rattle.hart_step.specs.InPlace.{parts, HasZero, IsDone, IsMade};

use crate::before::Before;
use crate::did::Did;
use crate::registers::{go_past, go_past_with};
use guest_atomics::touch;
use guest_memory::Memory;
use guest_pages::Recent;
use guest_words::{Class, Hart, Inst, Op, Width};
use rv_word::{sum, sx32, word_of};

/// What a load of so many bytes puts into rd, of the number that they spell.
#[inline(always)]
pub(crate) fn loaded(op: Op, width: Width, number: u64) -> u64
    requires class { class_of op ≡ Class.Load width }
    requires within { number < 2 ^ (8 * bytes_in width) }
    ensures value { result ≡ loaded_of op number }
{
    match op {
        Op::Lb => sign_extended_8(number as u8),
        Op::Lh => sign_extended_16(number as u16),
        Op::Lw => sx32(number),
        Op::Ld | Op::Lbu | Op::Lhu | Op::Lwu => number,
        _ => unreachable!(),
    }
}

#[inline(always)]
fn sign_extended_8(n: u8) -> u64
    ensures value { result ≡ word_of (sign_extended 8 n) }
{
    let n = i64::from(n);
    word_of(if n < 128 { n } else { n - 256 })
}

#[inline(always)]
fn sign_extended_16(n: u16) -> u64
    ensures value { result ≡ word_of (sign_extended 16 n) }
{
    let n = i64::from(n);
    word_of(if n < 32_768 { n } else { n - 65_536 })
}

/// Reads memory into rd.
#[inline(always)]
pub fn load(
    memory: &Memory,
    recent: &mut Recent,
    hart: &mut Hart,
    inst: &Inst,
    op: Op,
    a: u64,
    i: u64,
    width: Width,
) -> Did
    requires class { class_of op ≡ Class.Load width }
    requires op { inst.now.op ≡ op }
    requires registers { NamesRegisters inst.now }
    requires zero { HasZero hart.old }
    requires a { a ≡ first hart.old inst.now }
    requires i { i ≡ word_of inst.now.imm }
    ensures done { IsDone (load_act memory.now.space hart.old inst.now
        (access_place hart.old inst.now) width) hart.old hart.new result }
    ensures zero { HasZero hart.new }
{
    let place = sum(a, i);
    match memory.read_near(recent, place, width) {
        Ok(number) => {
            let value = loaded(op, width, number);
            go_past_with(hart, inst, value);
            Did::Went
        }
        Err(name) => Did::Fault(name),
    }
}

/// Writes a register to memory.
#[inline(always)]
pub fn store(
    memory: &mut Memory,
    recent: &mut Recent,
    before: &mut Before,
    hart: &mut Hart,
    inst: &Inst,
    a: u64,
    i: u64,
    b: u64,
    width: Width,
) -> Did
    requires zero { HasZero hart.old }
    requires a { a ≡ first hart.old inst.now }
    requires i { i ≡ word_of inst.now.imm }
    requires b { b ≡ second hart.old inst.now }
    ensures made { IsMade (store_act memory.old.space hart.old inst.now
        (access_place hart.old inst.now) width) (parts hart.old memory.old before.old)
        (parts hart.new memory.new before.new) result }
    ensures zero { HasZero hart.new }
    ensures text { SameText memory.old.space memory.new.space }
{
    let place = sum(a, i);
    match memory.exchange(recent, place, width, b) {
        Ok(old) => {
            go_past(hart);
            touch(hart, place, width.bytes());
            before.put(place, width, old);
            Did::Stored
        }
        Err(name) => Did::Fault(name),
    }
}
