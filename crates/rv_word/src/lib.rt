//! The number rules of register words.
#![tactic(auto)]

mod divisions;
mod products;
mod readings;
mod shifts;
mod sums;
#[cfg(test)]
mod tests;

pub use divisions::{
    quotient, quotient_32, quotient_unsigned, quotient_unsigned_32, remainder, remainder_32,
    remainder_unsigned, remainder_unsigned_32,
};
pub use products::{high_mixed, high_signed, high_unsigned, product};
pub use readings::{low_32, signed, signed_32, sx32, word_of};
pub use shifts::{
    shift_left, shift_left_32, shift_right, shift_right_32, shift_right_signed,
    shift_right_signed_32,
};
pub use sums::{difference, sum};
