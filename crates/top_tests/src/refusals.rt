use crate::case::{Case, list, run, run_on};
use crate::image::image;
use edge_ports::{MemoryShelf, ShelfFile};
use guest_words::{Bytes, Name};
use std::alloc::{AllocError, Global};
use std::test::Fail;

// addi x17,x0,93; addi x10,x0,7; ecall
const SMALLEST: [u32; 3] = [0x05d00893, 0x00700513, 0x00000073];

/// Files by their names.
fn shelf(alloc: Global, files: Vec<(&str, Vec<u8>)>) -> Result<MemoryShelf, AllocError> {
    let mut list = Vec::new(alloc);
    for (name, bytes) in files {
        list.push(ShelfFile {
            name: Name::of(String::from_str(alloc, name)?),
            bytes: Bytes::of(bytes),
        })?;
    }
    Ok(MemoryShelf::new(list, Vec::new(alloc)))
}

// Whether a text is this line, and behind it at most lines that begin with two spaces.
fn begins(text: &[u8], line: &str) -> bool {
    match text.strip_prefix(line.as_bytes()) {
        Some(hint) => hint.is_empty() || hint.starts_with(b"  ") && hint.ends_with(b"\n"),
        None => false,
    }
}

// Whether these words on these files are refused by this line, with this status and no history.
fn refused(
    alloc: Global,
    words: &[&str],
    files: Vec<(&str, Vec<u8>)>,
    status: u8,
    line: &str,
) -> Result<bool, AllocError> {
    let words = list(alloc, words)?;
    let mut shelf = shelf(alloc, files)?;
    let outcome = run_on(alloc, &words, &mut shelf, &Case::of(&[]))?;
    Ok(
        outcome.answer.status == status
            && outcome.answer.history.is_none()
            && begins(outcome.report.given(), line),
    )
}

const WORDS: [(&[&str], u8, &str); 9] = [
    (&[], 64, "refused: words no-command\n"),
    (&["fly"], 64, "refused: words unknown-command\n"),
    (&["alone"], 64, "refused: words line\n"),
    (&["alone", "--seed", "p"], 64, "refused: words line\n"),
    (&["alone", "p", "a"], 64, "refused: words port\n"),
    (&["run", "--fly"], 64, "refused: words threads\n"),
    (
        &["alone", "p", "a:b"],
        65,
        "refused: ports named 1 handed 0\n",
    ),
    (&["list", "p"], 66, "refused: program unreadable\n"),
    (&["load", "0"], 64, "refused: words line\n"),
];

#[test]
fn command_words(rt: HostRuntime) -> Result<(), Fail> {
    let alloc = rt.alloc();
    for (words, status, line) in WORDS {
        assert!(rt;
            refused(alloc, words, Vec::new(alloc), status, line)?,
            "{line}"
        );
    }
    Ok(())
}

const CUTS: [(usize, &str); 6] = [
    (0, "refused: elf too-short at 0\n"),
    (63, "refused: elf too-short at 63\n"),
    (64, "refused: elf headers-outside at 32\n"),
    (100, "refused: elf headers-outside at 32\n"),
    (120, "refused: elf segment-outside at 72\n"),
    (131, "refused: elf segment-outside at 72\n"),
];

#[test]
fn file_cut_short(rt: HostRuntime) -> Result<(), Fail> {
    let alloc = rt.alloc();
    for (length, line) in CUTS {
        let mut file = image(alloc, &SMALLEST, None)?;
        file.truncate(length);
        let files = vec![in alloc; ("p", file)]?;
        assert!(rt; refused(alloc, &["alone", "--seed", "0", "p"], files, 68, line)?);
    }
    Ok(())
}

/// Whole texts, on the smallest program `p`, a rescue file `f` with an entry outside of it, an empty
/// file `c` and one of 1,048,577 bytes `long`.
const WHOLE: [(&[&str], &str); 9] = [
    (
        &[],
        "refused: words no-command
  a command is missing
  the commands are run, alone, list, load, audit and try
  rescue --help tells more
",
    ),
    (
        &["load", "0"],
        "refused: words line
  N wants a number from 1 to 1000, not '0'
  usage: rescue load N
",
    ),
    (&["alone", "p", "a:b"], "refused: ports named 1 handed 0\n"),
    (
        &["list", "a\n"],
        "refused: program unreadable\n  'a?': no such file\n",
    ),
    (
        &["alone", "c"],
        "refused: elf too-short at 0\n  the file is cut: a header has 64 bytes\n",
    ),
    (
        &["alone", "--points", "long", "p"],
        "refused: points too long
  'long' has 1048577 bytes, and at most 1048576 are read
",
    ),
    (
        &["alone", "--points", "f", "p"],
        "refused: points outside-text at 0
  point 0: 0x20000 lies outside the executable ranges
  the executable ranges are 0x10000 to 0x1000c
",
    ),
    (
        &["audit", "h", "p", "c", "c", "c"],
        "refused: history unreadable\n  'h': no such file\n",
    ),
    (
        &["audit", "c", "p", "c", "c", "c", "c:x"],
        "refused: device 4 unreadable\n  'x': no such file\n",
    ),
];

#[test]
fn whole_texts(rt: HostRuntime) -> Result<(), Fail> {
    let alloc = rt.alloc();
    for (words, text) in WHOLE {
        let words = list(alloc, words)?;
        let long = vec![in alloc; 0u8; 1_048_577]?;
        let files = vec![in alloc;
            ("p", image(alloc, &SMALLEST, None)?),
            (
                "f",
                b"[[point]]\nentry = 131072\nreturns = 0\n".to_vec(alloc)?
            ),
            ("c", Vec::new(alloc)),
            ("long", long),
        ]?;
        let mut shelf = shelf(alloc, files)?;
        let outcome = run_on(alloc, &words, &mut shelf, &Case::of(&[]))?;
        assert!(rt; outcome.report.given() == text.as_bytes(), "{text}");
    }
    Ok(())
}

/// The command with a rescue file.
const RESCUED: [&str; 6] = ["alone", "--seed", "0", "--points", "f", "p"];

// A program that is broken comes before a rescue file that isn't there.
#[test]
fn missing_files(rt: HostRuntime) -> Result<(), Fail> {
    let alloc = rt.alloc();
    let none = Vec::new(alloc);
    assert!(rt; refused(alloc, &RESCUED, none, 66, "refused: program unreadable\n")?);
    let files = vec![in alloc; ("p", Vec::new(alloc))]?;
    assert!(rt; refused(alloc, &RESCUED, files, 68, "refused: elf too-short at 0\n")?);
    let files = vec![in alloc; ("p", image(alloc, &SMALLEST, None)?)]?;
    assert!(rt; refused(alloc, &RESCUED, files, 66, "refused: points unreadable\n")?);
    let long = vec![in alloc; 0u8; 1_048_577]?;
    let files = vec![in alloc; ("p", image(alloc, &SMALLEST, None)?), ("f", long)]?;
    assert!(rt; refused(alloc, &RESCUED, files, 67, "refused: points too long\n")?);
    Ok(())
}

// Section headers of 32 bytes, and an empty rescue file.
#[test]
fn broken_symbols(rt: HostRuntime) -> Result<(), Fail> {
    let alloc = rt.alloc();
    let mut file = image(alloc, &SMALLEST, None)?;
    for (place, byte) in [(40, 64), (58, 32), (60, 1)] {
        if let Some(old) = file.get_mut(place) {
            *old = byte;
        }
    }
    let files = vec![in alloc; ("p", file), ("f", Vec::new(alloc))]?;
    let line = "refused: symbols section-size at 58\n";
    assert!(rt; refused(alloc, &RESCUED, files, 69, line)?);
    Ok(())
}

const POINTS: [(&str, &str); 6] = [
    (
        "[[point]]\nentry = 0x10002\nreturns = -1\n",
        "refused: points misaligned at 0\n",
    ),
    (
        "[[point]]\nentry = 0x10000\nreturns = \"x\"\n",
        "refused: points bad-return at 0\n",
    ),
    ("version = 4\n", "refused: points bad-version at top\n"),
    (
        "version = 2\n[[point]]\nentry = 0x10000\nreturns = -1\nlimit = 0\n",
        "refused: points bad-limit at 0\n",
    ),
    (
        "version = 2\n[[point]]\nentry = 0x10000\nreturns = -1\ncodes = { load = 1 }\n",
        "refused: points bad-codes at 0\n",
    ),
    (
        "version = 3\n[[point]]\nentry = 0x10000\nreturns = -1\nkind = \"loose\"\n",
        "refused: points loose-here at 0\n",
    ),
];

#[test]
fn rescue_files(rt: HostRuntime) -> Result<(), Fail> {
    let alloc = rt.alloc();
    for (text, line) in POINTS {
        let mut case = Case::of(&SMALLEST);
        case.points = Some(text);
        let outcome = run(alloc, &case)?;
        assert_eq!(rt; outcome.answer.status, 73);
        assert!(rt; begins(outcome.report.given(), line), "{line}");
    }
    Ok(())
}
