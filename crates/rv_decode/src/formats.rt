ghost use Rattle.guest_words.specs.Instructions.{bits, immediate_of, rd_of, read, rs1_of, rs2_of};
ghost use Rattle.guest_words.specs.Word.{sign_extended};
ghost use Rattle.std.specs.Prelude.{◌≡◌, ◌+◌, ◌^◌, ◌<◌, ◌≤◌};

use guest_words::{Format, Inst, Op};

/// Bits high to low of a word.
#[inline]
pub(crate) fn bits(word: u32, high: u32, low: u32) -> u32
    requires order { low ≤ high }
    requires within { high < 31 + low }
    requires inside { high < 32 }
    ensures { result ≡ bits high low word }
{
    (word >> low) % (1 << (high + 1 - low))
}

/// A number of so many bits, whose highest bit is its sign.
#[inline]
fn sign_extended(number: u32, width: u32) -> i32
    requires some { 0 < width }
    requires most { width ≤ 32 }
    requires within { number < 2 ^ width }
    ensures { result ≡ sign_extended width number }
{
    let half = 1 << (width - 1);
    if number < half {
        number as i32
    } else {
        let short = (half - 1 - (number - half)) as i32;
        -1 - short
    }
}

/// The immediate of a word in a format.
#[inline]
fn immediate(word: u32, format: Format) -> i32
    ensures { result ≡ immediate_of format word }
{
    match format {
        Format::Upper => sign_extended(bits(word, 31, 12) << 12, 32),
        Format::Jump => jump_offset(word),
        Format::Immediate => sign_extended(bits(word, 31, 20), 12),
        Format::Branch => branch_offset(word),
        Format::Store => sign_extended((bits(word, 31, 25) << 5) + bits(word, 11, 7), 12),
        Format::Shift => bits(word, 25, 20) as i32,
        Format::WordShift => bits(word, 24, 20) as i32,
        Format::Register | Format::Bare => 0,
    }
}

/// How far a word of the jump format goes.
#[inline]
fn jump_offset(word: u32) -> i32
    ensures { result ≡ immediate_of Format.Jump word }
{
    let high = (bits(word, 31, 31) << 20) + (bits(word, 19, 12) << 12);
    let low = (bits(word, 20, 20) << 11) + (bits(word, 30, 21) << 1);
    sign_extended(high + low, 21)
}

/// How far a word of the branch format goes.
#[inline]
fn branch_offset(word: u32) -> i32
    ensures { result ≡ immediate_of Format.Branch word }
{
    let high = (bits(word, 31, 31) << 12) + (bits(word, 7, 7) << 11);
    let low = (bits(word, 30, 25) << 5) + (bits(word, 11, 8) << 1);
    sign_extended(high + low, 13)
}

#[inline]
fn rd(word: u32, format: Format) -> u8
    ensures { result ≡ rd_of format word }
{
    match format {
        Format::Branch | Format::Store | Format::Bare => 0,
        _ => bits(word, 11, 7) as u8,
    }
}

#[inline]
fn rs1(word: u32, format: Format) -> u8
    ensures { result ≡ rs1_of format word }
{
    match format {
        Format::Upper | Format::Jump | Format::Bare => 0,
        _ => bits(word, 19, 15) as u8,
    }
}

#[inline]
fn rs2(word: u32, format: Format) -> u8
    ensures { result ≡ rs2_of format word }
{
    match format {
        Format::Branch | Format::Store | Format::Register => bits(word, 24, 20) as u8,
        _ => 0,
    }
}

/// The instruction that a word is in a format.
#[inline]
pub(crate) fn read(word: u32, format: Format, op: Op) -> Inst
    ensures { result ≡ read format op word }
{
    Inst {
        op,
        rd: rd(word, format),
        rs1: rs1(word, format),
        rs2: rs2(word, format),
        imm: immediate(word, format),
    }
}
