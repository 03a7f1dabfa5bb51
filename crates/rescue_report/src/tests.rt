use crate::{put_list, report_text};
use edge_ports::MemorySink;
use elf_symbols::{SymbolTable, Symbols};
use guest_words::{Ending, Fault, FaultName, Kind, MemoryWant, Point, PointRef, Points, Ret};
use run_history::{Entry, History};
use sqlite_items::Items;
use std::alloc::Global;
use std::process::Abort;
use std::test::Fail;

// The point of `byte_written_twice`, of which no rescue is left.
fn one_point(alloc: Global) -> Result<Points, MemoryWant> {
    let mut items = Vec::new(alloc);
    items.push(Point {
        entry: 0x10018,
        codes: [Ret::Code(0xffff_ffff_ffff_fffe); 8],
        kind: Kind::Blocking,
        left: Some(0),
    })?;
    Ok(Points::of(items))
}

#[test]
fn smallest_program(rt: HostRuntime) -> Result<(), Fail> {
    let alloc = rt.alloc();
    let ending = Ending::Exit { hart: 0, code: 7 };
    let ran = Entry::Ran { hart: 0, count: 2 };
    let history = History::of(vec![in alloc; ran, Entry::Ended { ending }]?);
    let text = report_text(alloc, &history, &one_point(alloc)?, &ending)?;
    let lines = "rescue-report 1\nsteps 2\nrecords 0\nrescues 0\n\
        spent point 0000000000010018\nend exit 7\n";
    assert!(rt; text.items() == lines.as_bytes());
    Ok(())
}

#[test]
fn byte_written_twice(rt: HostRuntime) -> Result<(), Fail> {
    let alloc = rt.alloc();
    let ending = Ending::Exit { hart: 0, code: 15 };
    let rescued = Entry::Rescued {
        hart: 0,
        point: PointRef { entry: 0x10018 },
        fault: Fault {
            name: FaultName::LoadRights,
            pc: 0x10028,
        },
        inside: Items::from_vec(vec![in alloc; Entry::Ran { hart: 0, count: 4 }]?),
    };
    let before = Entry::Ran { hart: 0, count: 2 };
    let behind = Entry::Ran { hart: 0, count: 3 };
    let history = History::of(vec![in alloc; before, rescued, behind, Entry::Ended { ending }]?);
    let text = report_text(alloc, &history, &one_point(alloc)?, &ending)?;
    let lines = "rescue-report 1\nsteps 9\nrecords 0\nrescues 1\n\
        rescue depth 0 hart 0 point 0000000000010018 fault load-rights pc 0000000000010028 \
        steps 4 records 0 code -2\nspent point 0000000000010018\nend exit 15\n";
    assert!(rt; text.items() == lines.as_bytes());
    Ok(())
}

#[test]
fn load_across_pages(rt: HostRuntime) -> Result<(), Fail> {
    let alloc = rt.alloc();
    let fault = Fault {
        name: FaultName::LoadRights,
        pc: 0x10004,
    };
    let ending = Ending::Fault { hart: 0, fault };
    let history = History::of(vec![in alloc; Entry::Ended { ending }]?);
    let text = report_text(alloc, &history, &one_point(alloc)?, &ending)?;
    let last = "\nend fault load-rights hart 0 pc 0000000000010004\n";
    assert!(rt; text.items().ends_with(last.as_bytes()));
    Ok(())
}

#[test]
fn two_symbols(rt: HostRuntime) -> Result<(), Fail> {
    let alloc = rt.alloc();
    let entries = *b"\
        \0\0\0\0\x02\0\x01\0\xb0\0\x01\0\0\0\0\0\x24\0\0\0\0\0\0\0\
        \x07\0\0\0\x02\0\x01\0\0\0\x01\0\0\0\0\0\0\0\0\0\0\0\0\0";
    let symbols = Symbols::of(Some(SymbolTable {
        file: &entries,
        first: 0,
        count: 2,
        strings: b"handle\0_start\0",
    }));
    let mut sink = MemorySink::new(Vec::new(alloc));
    assert!(rt; put_list(alloc, &mut sink, &symbols).is_ok());
    let lines = "0000000000010000 0 _start\n00000000000100b0 36 handle\n";
    assert!(rt; sink.given() == lines.as_bytes());
    Ok(())
}

#[test]
fn name_longer_than_the_room(rt: HostRuntime) -> Result<(), Fail> {
    let alloc = rt.alloc();
    let entry = *b"\
        \0\0\0\0\x02\0\x01\0\xef\xcd\xab\x89\x67\x45\x23\x01\xff\xff\xff\xff\xff\xff\xff\xff";
    let mut strings = vec![in alloc; b'a'; 70_000]?;
    strings.push(0)?;
    let symbols = Symbols::of(Some(SymbolTable {
        file: &entry,
        first: 0,
        count: 1,
        strings: &strings,
    }));
    let mut sink = MemorySink::new(Vec::new(alloc));
    assert!(rt; put_list(alloc, &mut sink, &symbols).is_ok());
    let front = "0123456789abcdef 18446744073709551615 a";
    assert!(rt; sink.given().starts_with(front.as_bytes()));
    assert!(rt; sink.given().ends_with("a\n".as_bytes()));
    assert_eq!(rt; sink.given().len(), 70_039);
    Ok(())
}
