ghost use Rattle.guest_words.specs.Effects.{class_of};
ghost use Rattle.std.specs.Prelude.{◌≡◌};

use crate::inst::Op;
use crate::width::Width;

/// What an instruction does, apart from the values.
#[derive(Clone, Copy, Debug, PartialEq, Eq)]
pub enum Class {
    /// Puts a value formed from pc, registers and immediate into rd.
    Register,
    /// Jumps where its condition on two registers holds.
    Branch,
    /// Jumps, and puts the address of the next instruction into rd.
    Jump,
    /// Reads memory into rd.
    Load { width: Width },
    /// Writes a register to memory.
    Store { width: Width },
    /// Orders accesses to memory, which one step at a time does already.
    Fence,
    /// Asks for what a0 to a7 say.
    Call,
    /// Stops at a debugger's breakpoint.
    Break,
    /// Reads memory into rd and reserves it.
    LoadReserved { width: Width },
    /// Writes memory where its reservation still holds.
    StoreConditional { width: Width },
    /// Reads memory into rd and stores what the old value and a register make.
    Atomic { width: Width },
}

impl Op {
    /// What the instruction does.
    pub fn class(self) -> Class
        ensures { result ≡ class_of self }
    {
        match self {
            Op::Jal | Op::Jalr => Class::Jump,
            Op::Beq | Op::Bne | Op::Blt | Op::Bge | Op::Bltu | Op::Bgeu => Class::Branch,
            Op::Lb | Op::Lbu => Class::Load { width: Width::One },
            Op::Lh | Op::Lhu => Class::Load { width: Width::Two },
            Op::Lw | Op::Lwu => Class::Load { width: Width::Four },
            Op::Ld => Class::Load {
                width: Width::Eight,
            },
            Op::Sb => Class::Store { width: Width::One },
            Op::Sh => Class::Store { width: Width::Two },
            Op::Sw => Class::Store { width: Width::Four },
            Op::Sd => Class::Store {
                width: Width::Eight,
            },
            Op::Fence => Class::Fence,
            Op::Ecall => Class::Call,
            Op::Ebreak => Class::Break,
            Op::LrW => Class::LoadReserved { width: Width::Four },
            Op::ScW => Class::StoreConditional { width: Width::Four },
            Op::AmoswapW
            | Op::AmoaddW
            | Op::AmoxorW
            | Op::AmoandW
            | Op::AmoorW
            | Op::AmominW
            | Op::AmomaxW
            | Op::AmominuW
            | Op::AmomaxuW => Class::Atomic { width: Width::Four },
            Op::LrD => Class::LoadReserved {
                width: Width::Eight,
            },
            Op::ScD => Class::StoreConditional {
                width: Width::Eight,
            },
            Op::AmoswapD
            | Op::AmoaddD
            | Op::AmoxorD
            | Op::AmoandD
            | Op::AmoorD
            | Op::AmominD
            | Op::AmomaxD
            | Op::AmominuD
            | Op::AmomaxuD => Class::Atomic {
                width: Width::Eight,
            },
            _ => Class::Register,
        }
    }
}
