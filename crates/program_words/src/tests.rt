use crate::{
    Command, WordFault, WordsFault, help_text, needs_threads, port_names, read_words, report_file,
    report_to_out, version_text,
};
use std::alloc::{AllocError, Global};
use std::test::Fail;

fn words(alloc: Global, line: &str) -> Result<Vec<String>, AllocError> {
    let mut words = Vec::new(alloc);
    for word in line.split_whitespace() {
        words.push(String::from_str(alloc, word)?)?;
    }
    Ok(words)
}

fn fault(alloc: Global, line: &str) -> Result<Option<WordFault>, AllocError> {
    match read_words(alloc, words(alloc, line)?.as_slice()) {
        Err(WordsFault::Words(fault)) => Ok(Some(fault)),
        _ => Ok(None),
    }
}

/// The harts, the budget, the seed and the number of ports of an `alone` for the program `p`.
fn alone(alloc: Global, line: &str) -> Result<Option<(u8, u64, u64, u64)>, Fail> {
    match read_words(alloc, words(alloc, line)?.as_slice())? {
        Command::Alone {
            harts,
            budget,
            seed,
            program,
            ports,
            ..
        } => {
            if program.items() == "p" {
                Ok(Some((harts, budget, seed, ports)))
            } else {
                Ok(None)
            }
        }
        _ => Ok(None),
    }
}

#[test]
fn command_words(rt: HostRuntime) -> Result<(), Fail> {
    let alloc = rt.alloc();
    assert_eq!(rt; fault(alloc, "")?, Some(WordFault::NoCommand));
    assert_eq!(rt; fault(alloc, "fly")?, Some(WordFault::UnknownCommand));
    assert_eq!(rt; fault(alloc, "alone")?, Some(WordFault::Line));
    assert_eq!(rt;
        alone(alloc, "alone --seed 7 p")?,
        Some((8, 5_000_000, 7, 0))
    );
    assert_eq!(rt;
        alone(alloc, "alone --seed=7 p")?,
        Some((8, 5_000_000, 7, 0))
    );
    assert_eq!(rt;
        fault(alloc, "run p a")?,
        Some(WordFault::Port { index: 0 })
    );
    Ok(())
}

#[test]
fn edges_of_lines(rt: HostRuntime) -> Result<(), Fail> {
    let alloc = rt.alloc();
    assert_eq!(rt;
        alone(alloc, "alone p a:b --harts +7 c:d --budget=007")?,
        Some((7, 7, 0, 2))
    );
    assert_eq!(rt; fault(alloc, "run --help")?, Some(WordFault::Line));
    assert_eq!(rt; fault(alloc, "help --run")?, Some(WordFault::Line));
    assert_eq!(rt;
        fault(alloc, "try --returns -2 p i")?,
        Some(WordFault::Line)
    );
    assert_eq!(rt; fault(alloc, "list --report f p")?, Some(WordFault::Line));
    assert_eq!(rt;
        fault(alloc, "alone --seed 7 --points")?,
        Some(WordFault::Line)
    );
    assert_eq!(rt; fault(alloc, "run p --harts 65")?, Some(WordFault::Line));
    assert_eq!(rt; fault(alloc, "load 1001")?, Some(WordFault::Line));
    assert_eq!(rt;
        fault(alloc, "run p a:b c:d:e")?,
        Some(WordFault::Port { index: 1 })
    );
    Ok(())
}

#[test]
fn other_commands(rt: HostRuntime) -> Result<(), Fail> {
    let alloc = rt.alloc();
    let run = words(alloc, "run --points f --save h p a:b")?;
    let command = read_words(alloc, run.as_slice())?;
    let Command::Run { points, save, .. } = command else {
        return Err(Fail::from("a run"));
    };
    let points = points.ok_or("points")?;
    assert!(rt; points.items() == "f");
    let save = save.ok_or("save")?;
    assert!(rt; save.items() == "h");
    assert!(rt; needs_threads(run.as_slice()));
    let load = words(alloc, "load 1000")?;
    assert!(rt; report_to_out(load.as_slice()));
    assert!(rt;
        matches!(
            read_words(alloc, load.as_slice())?,
            Command::Load { number: 1_000 }
        )
    );
    Ok(())
}

#[test]
fn audit_and_try(rt: HostRuntime) -> Result<(), Fail> {
    let alloc = rt.alloc();
    let audit = words(alloc, "audit h p i o e a:b")?;
    let command = read_words(alloc, audit.as_slice())?;
    let Command::Audit { history, ports, .. } = command else {
        return Err(Fail::from("an audit"));
    };
    assert!(rt; history.items() == "h");
    let port = ports.items().first().ok_or("a port")?;
    assert!(rt; port.output.items() == "b");
    assert!(rt; port_names(alloc, audit.as_slice())?.items().is_empty());
    assert_eq!(rt;
        fault(alloc, "audit h p i o e a")?,
        Some(WordFault::Port { index: 0 })
    );
    let command = read_words(alloc, words(alloc, "try --returns=-17 p i")?.as_slice())?;
    assert!(rt; matches!(command, Command::Try { returns: -17, .. }));
    Ok(())
}

#[test]
fn texts_and_report(rt: HostRuntime) -> Result<(), Fail> {
    let alloc = rt.alloc();
    let command = read_words(alloc, words(alloc, "-h try")?.as_slice())?;
    assert!(rt; matches!(command, Command::Help));
    assert!(rt; help_text(alloc)?.items().starts_with(b"rescue runs one"));
    assert!(rt; version_text().starts_with("rescue "));
    let report = report_file(alloc, words(alloc, "try --report=r p i")?.as_slice())?;
    assert!(rt; report.ok_or("a report")?.items() == "r");
    assert!(rt; report_file(alloc, words(alloc, "list p")?.as_slice())?.is_none());
    Ok(())
}

#[test]
fn ports_by_name(rt: HostRuntime) -> Result<(), Fail> {
    let alloc = rt.alloc();
    let names = port_names(alloc, words(alloc, "run p a:b")?.as_slice())?;
    let port = names.items().first().ok_or("a port")?;
    assert!(rt; port.input.items() == "a");
    assert!(rt; port.output.items() == "b");
    Ok(())
}
