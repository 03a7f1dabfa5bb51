//! The two words, and what TURN tells of a value at home.
ghost use Rattle.std.specs.Prelude.{◌≡◌};
ghost use Rattle.stop_gate.specs.Words.{turn_of, length_in, over_bit, IsHome};

use crate::held::Held;

/// GATE: the passes that count in bits 0 to 62, and the stop bit.
pub(crate) const GATE: usize = 0;

/// TURN: odd while the value is out, its length in bits 1 to 62, and bit 63 where it is over.
pub(crate) const TURN: usize = 1;

/// Bit 63: the stop bit of GATE, and of TURN that the value is over.
pub(crate) const STOP: u64 = 0x8000_0000_0000_0000;

/// GATE without the stop bit.
pub(crate) const LOW: u64 = 0x7fff_ffff_ffff_ffff;

/// TURN for this value at home.
pub(crate) fn word_of<C: Held>(held: &C) -> u64
    ensures value { result ≡ turn_of C.Held held.now }
    ensures home { IsHome result }
    ensures length { length_in result ≡ C.length held.now }
    ensures over { over_bit result ≡ C.over held.now }
{
    let twice = held.length() * 2;
    if held.over() { twice + STOP } else { twice }
}
