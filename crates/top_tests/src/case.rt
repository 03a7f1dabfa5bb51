use crate::image::image;
use edge_ports::{MemoryPort, MemoryShelf, MemorySink, MemorySource, Port, ShelfFile};
use guest_words::{Bytes, Name};
use rescue_run::{Answer, alone_top};
use std::alloc::{AllocError, Global};

pub type Over = Answer<MemorySource, MemorySink>;

/// What is run: the words of the program, its data, its rescue file and its input; the harts and
/// the budget that are asked for; whether a port is named and handed in; and the numbers of the
/// calls of its output, of its port and of its report that are to fail.
#[derive(Clone, Copy)]
pub struct Case<'a> {
    pub words: &'a [u32],
    pub data: Option<&'a [u8]>,
    pub points: Option<&'a str>,
    pub input: &'a [u8],
    pub harts: Option<u8>,
    pub budget: Option<u64>,
    pub port: bool,
    pub out_fails: &'a [u64],
    pub port_fails: &'a [u64],
    pub report_fails: &'a [u64],
}

impl<'a> Case<'a> {
    /// A program of these words, with nothing else.
    pub fn of(words: &'a [u32]) -> Case<'a> {
        Case {
            words,
            data: None,
            points: None,
            input: &[],
            harts: None,
            budget: None,
            port: false,
            out_fails: &[],
            port_fails: &[],
            report_fails: &[],
        }
    }

    /// How many ports are named.
    pub fn ports(&self) -> u64 {
        u64::from(self.port)
    }
}

/// How it went: the answer, and what the report sink was given.
#[derive(Drop)]
pub struct Outcome {
    pub answer: Over,
    pub report: MemorySink,
}

fn name(alloc: Global, text: &str) -> Result<Name, AllocError> {
    Ok(Name::of(String::from_str(alloc, text)?))
}

fn file(alloc: Global, text: &str, bytes: Vec<u8>) -> Result<ShelfFile, AllocError> {
    Ok(ShelfFile {
        name: name(alloc, text)?,
        bytes: Bytes::of(bytes),
    })
}

/// The command of a case, whose program is `p` and whose rescue file, if there is one, is `f`.
pub fn command(alloc: Global, case: &Case) -> Result<Vec<String>, AllocError> {
    let mut words = list(alloc, &["alone", "p"])?;
    if case.points.is_some() {
        words.push(String::from_str(alloc, "--points=f")?)?;
    }
    if let Some(harts) = case.harts {
        words.push(format!(in alloc; "--harts={harts}")?)?;
    }
    if let Some(budget) = case.budget {
        words.push(format!(in alloc; "--budget={budget}")?)?;
    }
    if case.port {
        words.push(String::from_str(alloc, "a:b")?)?;
    }
    Ok(words)
}

/// These words.
pub fn list(alloc: Global, texts: &[&str]) -> Result<Vec<String>, AllocError> {
    let mut words = Vec::new(alloc);
    for text in texts {
        words.push(String::from_str(alloc, text)?)?;
    }
    Ok(words)
}

/// A shelf with this program under the name `p`, and with this rescue file, if there is one, under
/// the name `f`.
pub fn shelf(
    alloc: Global,
    program: Vec<u8>,
    points: Option<&str>,
) -> Result<MemoryShelf, AllocError> {
    let mut files = Vec::new(alloc);
    files.push(file(alloc, "p", program)?)?;
    if let Some(points) = points {
        files.push(file(alloc, "f", points.as_bytes().to_vec(alloc)?)?)?;
    }
    Ok(MemoryShelf::new(files, Vec::new(alloc)))
}

/// Runs a case.
pub fn run(alloc: Global, case: &Case) -> Result<Outcome, AllocError> {
    let words = command(alloc, case)?;
    let program = image(alloc, case.words, case.data)?;
    let mut shelf = shelf(alloc, program, case.points)?;
    run_on(alloc, &words, &mut shelf, case)
}

/// A sink with room for all that a case puts; its calls of these numbers fail.
pub fn sink(alloc: Global, failing: &[u64]) -> Result<MemorySink, AllocError> {
    MemorySink::with_room(alloc, 1024, failing.to_vec(alloc)?).map_err(|_| AllocError)
}

/// Runs a case with these words and files.
pub fn run_on(
    alloc: Global,
    words: &[String],
    shelf: &mut MemoryShelf,
    case: &Case,
) -> Result<Outcome, AllocError> {
    let mut report = sink(alloc, case.report_fails)?;
    let mut ports: Vec<Box<dyn Port + Send>> = Vec::new(alloc);
    if case.port {
        let input = Bytes::of(Vec::new(alloc));
        let port = MemoryPort::with_room(alloc, input, 64, case.port_fails.to_vec(alloc)?);
        let port = port.map_err(|_| AllocError)?;
        ports.push(Box::new(alloc, port).map_err(|_| AllocError)?)?;
    }
    let answer = alone_top(
        alloc,
        words,
        shelf,
        MemorySource::new(Bytes::of(case.input.to_vec(alloc)?), Vec::new(alloc)),
        sink(alloc, case.out_fails)?,
        sink(alloc, &[])?,
        ports,
        &mut report,
    );
    Ok(Outcome { answer, report })
}
