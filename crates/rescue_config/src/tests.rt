use crate::{PointFault, PointsFault, read_points};
use elf_symbols::{SymbolTable, Symbols};
use guest_words::{Kind, Point, Points, Ret, Span};
use std::alloc::{AllocError, Global};
use std::test::Fail;

/// The symbol table of a program: a function named f at the start of the text, one more of this
/// name, and one named handle.
const ENTRIES: [u8; 72] = *b"\
    \0\0\0\0\x02\0\x01\0\0\0\x01\0\0\0\0\0\0\0\0\0\0\0\0\0\
    \0\0\0\0\x02\0\x01\0\x04\0\x01\0\0\0\0\0\0\0\0\0\0\0\0\0\
    \x02\0\0\0\x02\0\x01\0\xb0\0\x01\0\0\0\0\0\0\0\0\0\0\0\0\0";

/// What the rescue file says of a program whose one executable load has 256 bytes at 0x10000.
fn read(alloc: Global, file: &[u8]) -> Result<Result<Points, PointsFault>, AllocError> {
    let text = [Span {
        from: 0x10000,
        size: 256,
    }];
    let entries = ENTRIES;
    let symbols = Symbols::of(Some(SymbolTable {
        file: &entries,
        first: 0,
        count: 3,
        strings: b"f\0handle\0",
    }));
    Ok(read_points(alloc, file, &symbols, &text))
}

/// The number of points of a rescue file that keeps the rules.
fn count(alloc: Global, file: &[u8]) -> Result<usize, Fail> {
    Ok(read(alloc, file)??.items().len())
}

/// A rescue file, the first rule that it breaks, and the number of the point that breaks it.
type Case = (&'static str, PointFault, Option<u32>);

/// Each rule once or more, in order.
const RULES: [Case; 21] = [
    ("point = ", PointFault::Toml, None),
    ("size = 1", PointFault::UnknownKey, None),
    ("version = 4", PointFault::BadVersion, None),
    ("version = true", PointFault::BadVersion, None),
    ("point = 1", PointFault::BadValue, None),
    ("point = [{}, 1]", PointFault::BadValue, None),
    ("point = {}", PointFault::BadValue, None),
    ("[[point]]\nsize = 1", PointFault::UnknownKey, Some(0)),
    ("[[point]]\nreturns = 0", PointFault::Missing, Some(0)),
    (
        "[[point]]\nfunction = 'handle'\nentry = 65712\nreturns = 0",
        PointFault::Both,
        Some(0),
    ),
    ("[[point]]\nfunction = 1", PointFault::BadValue, Some(0)),
    ("[[point]]\nentry = -4", PointFault::BadValue, Some(0)),
    ("[[point]]\nentry = 65536", PointFault::Missing, Some(0)),
    (
        "[[point]]\nentry = 65536\nreturns = 'x'",
        PointFault::BadReturn,
        Some(0),
    ),
    (
        "[[point]]\nentry = 65536\nreturns = 0\nkind = 'on'",
        PointFault::BadKind,
        Some(0),
    ),
    (
        "[[point]]\nfunction = 'g'\nreturns = 0",
        PointFault::UnknownFunction,
        Some(0),
    ),
    (
        "[[point]]\nfunction = 'f'\nreturns = 0",
        PointFault::Ambiguous { count: 2 },
        Some(0),
    ),
    (
        "[[point]]\nentry = 65538\nreturns = 0\nkind = 'off'",
        PointFault::Misaligned,
        Some(0),
    ),
    (
        "[[point]]\nentry = 65792\nreturns = 'void'",
        PointFault::OutsideText,
        Some(0),
    ),
    (
        "[[point]]\nentry = 65536\nreturns = 0\n[[point]]\nentry = 65536\nreturns = 1",
        PointFault::Twice { first: 0 },
        Some(1),
    ),
    (
        "[[point]]\nentry = 65536\nreturns = 0\n[[point]]\nreturns = 1",
        PointFault::Missing,
        Some(1),
    ),
];

/// Each rule of versions 2 and 3 once or more, in order.
const LATER_RULES: [Case; 11] = [
    (
        "version = 1\n[[point]]\ncodes = {}",
        PointFault::UnknownKey,
        Some(0),
    ),
    (
        "version = 1\n[[point]]\nlimit = 1",
        PointFault::UnknownKey,
        Some(0),
    ),
    (
        "version = 2\n[[point]]\nentry = 65536\nreturns = 0\ncodes = 1",
        PointFault::BadCodes,
        Some(0),
    ),
    (
        "version = 2\n[[point]]\nentry = 65536\nreturns = 0\ncodes = { illegal = 'x' }",
        PointFault::BadCodes,
        Some(0),
    ),
    (
        "version = 2\n[[point]]\nentry = 65536\nreturns = 0\nlimit = '1'",
        PointFault::BadLimit,
        Some(0),
    ),
    (
        "version = 2\n[[point]]\nentry = 65536\nreturns = 0\nlimit = 1000001",
        PointFault::BadLimit,
        Some(0),
    ),
    (
        "version = 2\n[[point]]\nentry = 65536\nreturns = 0\nkind = 'loose'",
        PointFault::BadKind,
        Some(0),
    ),
    (
        "version = 3\n[[point]]\nentry = 65536\nreturns = 0\nkind = 'on'",
        PointFault::BadKind,
        Some(0),
    ),
    (
        "version = 3\n[[point]]\nentry = 65536\nreturns = 0\nkind = 'loose'
        [[point]]\nentry = 65540\nreturns = 0",
        PointFault::Mixed { first: 0 },
        Some(1),
    ),
    (
        "version = 3\n[[point]]\nentry = 65536\nreturns = 0\nkind = 'off'
        [[point]]\nentry = 65540\nreturns = 0\n[[point]]\nentry = 65544\nreturns = 0
        [[point]]\nentry = 65538\nreturns = 0\nkind = 'loose'",
        PointFault::Mixed { first: 1 },
        Some(3),
    ),
    (
        "version = 3\n[[point]]\nentry = 65538\nreturns = 0\nkind = 'loose'",
        PointFault::Misaligned,
        Some(0),
    ),
];

/// Two rules are broken: in one point, and in two points.
const ORDERS: [Case; 2] = [
    (
        "[[point]]\nentry = 65538\nreturns = 'x'\nkind = 'on'",
        PointFault::BadReturn,
        Some(0),
    ),
    (
        "[[point]]\nentry = 65538\nreturns = 0\n[[point]]\nsize = 1",
        PointFault::Misaligned,
        Some(0),
    ),
];

#[test]
fn bytes_that_are_no_text(rt: HostRuntime) -> Result<(), Fail> {
    let answer = read(rt.alloc(), b"\xff\xfe")?.err();
    let fault = PointFault::Toml;
    assert_eq!(rt; answer, Some(PointsFault::Points { fault, place: None }));
    Ok(())
}

#[test]
fn rescue_files(rt: HostRuntime) -> Result<(), Fail> {
    for (file, fault, place) in RULES {
        let answer = read(rt.alloc(), file.as_bytes())?.err();
        assert_eq!(rt;
            answer,
            Some(PointsFault::Points { fault, place }),
            "{file}"
        );
    }
    Ok(())
}

#[test]
fn later_rescue_files(rt: HostRuntime) -> Result<(), Fail> {
    for (file, fault, place) in LATER_RULES {
        let answer = read(rt.alloc(), file.as_bytes())?.err();
        assert_eq!(rt;
            answer,
            Some(PointsFault::Points { fault, place }),
            "{file}"
        );
    }
    Ok(())
}

#[test]
fn limits_refused(rt: HostRuntime) -> Result<(), Fail> {
    let place = Some(0);
    let none = b"version = 2\n[[point]]\nentry = 65536\nreturns = -1\nlimit = 0";
    let answer = read(rt.alloc(), none)?.err();
    let fault = PointFault::BadLimit;
    assert_eq!(rt; answer, Some(PointsFault::Points { fault, place }));
    let other = b"version = 2\n[[point]]\nentry = 65536\nreturns = -1\ncodes = { load = 1 }";
    let answer = read(rt.alloc(), other)?.err();
    let fault = PointFault::BadCodes;
    assert_eq!(rt; answer, Some(PointsFault::Points { fault, place }));
    Ok(())
}

#[test]
fn first_of_two_broken_rules(rt: HostRuntime) -> Result<(), Fail> {
    for (file, fault, place) in ORDERS {
        let answer = read(rt.alloc(), file.as_bytes())?.err();
        assert_eq!(rt;
            answer,
            Some(PointsFault::Points { fault, place }),
            "{file}"
        );
    }
    Ok(())
}

#[test]
fn many_points(rt: HostRuntime) -> Result<(), Fail> {
    let mut file = String::from_str(rt.alloc(), "point = [")?;
    for _ in 0..257 {
        file.push_str("{},")?;
    }
    file.push_str("]")?;
    let answer = read(rt.alloc(), file.as_str().as_bytes())?.err();
    let fault = PointFault::TooMany { count: 257 };
    assert_eq!(rt; answer, Some(PointsFault::Points { fault, place: None }));
    Ok(())
}

#[test]
fn no_points(rt: HostRuntime) -> Result<(), Fail> {
    assert_eq!(rt; count(rt.alloc(), b"")?, 0);
    assert_eq!(rt; count(rt.alloc(), b"version = 1\npoint = []")?, 0);
    Ok(())
}

const EXAMPLE: &str = "version = 1
[[point]]
function = \"handle\"
returns = -1
kind = \"blocking\"
";

#[test]
fn point_of_a_function(rt: HostRuntime) -> Result<(), Fail> {
    let points = read(rt.alloc(), EXAMPLE.as_bytes())??;
    let want = Point {
        entry: 0x100b0,
        codes: [Ret::Code(u64::MAX); 8],
        kind: Kind::Blocking,
        left: None,
    };
    assert!(rt; points.items() == [want].as_slice());
    Ok(())
}

const CODES: &str = "version = 2
[[point]]
entry = 65560
returns = -2
limit = 1000000
codes = { load-rights = -4, blocked-in-point = 'void' }
";

#[test]
fn code_by_fault_name(rt: HostRuntime) -> Result<(), Fail> {
    let points = read(rt.alloc(), CODES.as_bytes())??;
    let other = Ret::Code(u64::MAX - 1);
    let load = Ret::Code(u64::MAX - 3);
    let want = Point {
        entry: 0x10018,
        codes: [other, other, other, load, other, other, other, Ret::Void],
        kind: Kind::Blocking,
        left: Some(1_000_000),
    };
    assert!(rt; points.items() == [want].as_slice());
    Ok(())
}

const LOOSE: &str = "version = 3
[[point]]
entry = 65560
returns = -2
kind = 'loose'
limit = 1
";

#[test]
fn loose_point(rt: HostRuntime) -> Result<(), Fail> {
    let points = read(rt.alloc(), LOOSE.as_bytes())??;
    let want = Point {
        entry: 0x10018,
        codes: [Ret::Code(u64::MAX - 1); 8],
        kind: Kind::Loose,
        left: Some(1),
    };
    assert!(rt; points.items() == [want].as_slice());
    assert!(rt; points.has_loose());
    Ok(())
}

#[test]
fn printed_refusal(rt: HostRuntime) -> Result<(), Fail> {
    let fault = read(rt.alloc(), b"[[point]]")?.err().ok_or("refused")?;
    let text = format!(in rt.alloc(); "{fault}")?;
    assert!(rt; text.as_str() == "points missing");
    Ok(())
}
