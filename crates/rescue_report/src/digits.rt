ghost use Rattle.std.specs.Prelude.{◌≡◌, ◌++◌, ◌^◌, ◌<◌, ◌≤◌, false, length, take};
ghost use Rattle.std.specs.Fmt.{decimal, digit_glyph, digits};
ghost use Rattle.rescue_report.specs.Numbers.{hexadecimal};

use std::marker::Model;

/// The digits of a number of 64 bits, which take no memory. Contracts see their list.
#[derive(Drop)]
pub(crate) struct Digits {
    bytes: [u8; 20],
    from: usize,
}

impl Model for Digits {
    ghost use Rattle.std.specs.Prelude.{List, ℕ, ◌≤◌, drop};

    ghost Value = { List ℕ };

    ghost view = { λ d. drop d.from d.bytes };

    ghost invariant = { λ d. d.from ≤ 20 };
}

impl Digits {
    /// The decimal digits of a number.
    pub fn decimal(number: u64) -> Digits
        ensures digits { result ≡ decimal number }
    {
        let mut bytes = [0; 20];
        let from = put_digits(&mut bytes, 10, number);
        Digits { bytes, from }
    }

    /// The 16 hexadecimal digits of a number.
    pub fn hexadecimal(number: u64) -> Digits
        ensures digits { result ≡ hexadecimal number }
    {
        let mut bytes = [b'0'; 20];
        put_digits(&mut bytes[4..], 16, number);
        Digits { bytes, from: 4 }
    }

    pub fn as_slice(&self) -> &[u8]
        ensures list { result.now ≡ self.now }
    {
        &self.bytes[self.from..]
    }
}

/// Writes the digits of a number at the end of bytes, and answers where they begin.
fn put_digits(bytes: &mut [u8], base: u64, number: u64) -> usize
    requires least { 2 ≤ base }
    requires most { base ≤ 16 }
    requires some { 0 < length bytes.old }
    requires few { length bytes.old ≤ 64 }
    requires fits { number < base ^ length bytes.old }
    ensures within { result ≤ length bytes.old }
    ensures digits { bytes.new ≡ take result bytes.old ++ digits base false number }
{
    let mut from = bytes.len() - 1;
    let mut rest = number;
    while rest >= base {
        bytes[from] = digit(rest % base);
        rest /= base;
        from -= 1;
    }
    bytes[from] = digit(rest);
    from
}

/// The digit of a number below 16.
fn digit(number: u64) -> u8
    requires below { number < 16 }
    ensures glyph { result ≡ digit_glyph false number }
{
    let number = number as u8;
    if number < 10 {
        b'0' + number
    } else {
        b'a' - 10 + number
    }
}
