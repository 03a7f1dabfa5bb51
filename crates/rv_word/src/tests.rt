//! Each call once, at values whose results the ISA manual's text gives.

use crate::*;

const LEAST: u64 = 1 << 63;

const MINUS_ONE: u64 = u64::MAX;

#[test]
fn readings(rt: HostRuntime) {
    assert_eq!(rt; signed(MINUS_ONE), -1);
    assert_eq!(rt; signed_32(0x1_8000_0000), i32::MIN);
    assert_eq!(rt; low_32(0x1_8000_0000), 0x8000_0000);
    assert_eq!(rt; word_of(-2), 0xffff_ffff_ffff_fffe);
    assert_eq!(rt; sx32(0x8000_0000), 0xffff_ffff_8000_0000);
}

#[test]
fn sums_and_products(rt: HostRuntime) {
    assert_eq!(rt; sum(MINUS_ONE, 2), 1);
    assert_eq!(rt; difference(1, 2), MINUS_ONE);
    assert_eq!(rt; product(MINUS_ONE, MINUS_ONE), 1);
    assert_eq!(rt; high_signed(LEAST, LEAST), 1 << 62);
    assert_eq!(rt; high_mixed(MINUS_ONE, MINUS_ONE), MINUS_ONE);
    assert_eq!(rt; high_unsigned(MINUS_ONE, MINUS_ONE), 0xffff_ffff_ffff_fffe);
}

#[test]
fn quotients(rt: HostRuntime) {
    assert_eq!(rt; quotient(LEAST, MINUS_ONE), LEAST);
    assert_eq!(rt; quotient_unsigned(LEAST, MINUS_ONE), 0);
    assert_eq!(rt;
        quotient_32(0x8000_0000, 0xffff_ffff),
        0xffff_ffff_8000_0000
    );
    assert_eq!(rt; quotient_unsigned_32(0x8000_0000, 1), 0xffff_ffff_8000_0000);
}

#[test]
fn remainders(rt: HostRuntime) {
    assert_eq!(rt; remainder(difference(0, 7), 2), MINUS_ONE);
    assert_eq!(rt; remainder_unsigned(7, 4), 3);
    assert_eq!(rt; remainder_32(0xffff_fff9, 2), MINUS_ONE);
    assert_eq!(rt;
        remainder_unsigned_32(0x8000_0000, 0),
        0xffff_ffff_8000_0000
    );
}

#[test]
fn shifts(rt: HostRuntime) {
    assert_eq!(rt; shift_left(1, 127), LEAST);
    assert_eq!(rt; shift_right(LEAST, 127), 1);
    assert_eq!(rt; shift_right_signed(LEAST, 127), MINUS_ONE);
    assert_eq!(rt; shift_left_32(1, 63), 0xffff_ffff_8000_0000);
    assert_eq!(rt; shift_right_32(0x8000_0000, 63), 1);
    assert_eq!(rt; shift_right_signed_32(0x8000_0000, 63), MINUS_ONE);
}
