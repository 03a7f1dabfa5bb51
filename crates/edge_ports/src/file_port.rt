ghost use Rattle.std.specs.Prelude.{◌≡◌, ◌<◌, None, length};
ghost use Rattle.std.specs.Io.{ReadsAtMost};
ghost use Rattle.edge_ports.specs.Adapters.{file_port_end, input_of, output_of, ReadsFrom, WritesTo};
ghost use Rattle.edge_ports.specs.End.{ended, untold, Puts, Takes};

use crate::failed::Failed;
use crate::port::Port;
use crate::writing::write_whole;
use std::fs;
use std::io::{Read, Write};
use std::rt::Files;

/// A connection over two files. It doesn't tell their bytes.
#[derive(Drop)]
pub struct FilePort<I, O> {
    input: Option<I>,
    output: Option<O>,
    faults: u64,
    closes: u64,
}

impl<I: Read + Drop, O: Write + Drop> Port for FilePort<I, O> {
    ghost end = { file_port_end };

    fn given(&self) -> Option<&[u8]> {
        None
    }

    /// Drops the files.
    fn close(&mut self)
        ensures ended { file_port_end self.new ≡ ended (file_port_end self.old) }
        ensures input { input_of self.new ≡ None }
        ensures output { output_of self.new ≡ None }
    {
        self.input = None;
        self.output = None;
        self.closes = self.closes.saturating_add(1);
    }

    /// One read of the input file; without one it fails.
    fn take(&mut self, into: &mut [u8]) -> Result<usize, Failed>
        ensures takes { Takes (file_port_end self.old) (file_port_end self.new) into.new result }
        ensures reads { 0 < length into.old → ReadsFrom I.remaining (input_of self.old)
            (input_of self.new) result into.new }
        ensures output { output_of self.new ≡ output_of self.old }
    {
        if into.is_empty() {
            return Ok(0);
        }
        let taken = read_some(&mut self.input, into);
        if taken.is_err() {
            self.faults = self.faults.saturating_add(1);
        }
        taken
    }

    /// Writes all of the bytes to the output file; without one it fails.
    fn put(&mut self, from: &[u8]) -> Result<(), Failed>
        ensures puts { Puts (file_port_end self.old) (file_port_end self.new) from.now result }
        ensures writes { 0 < length from.now → WritesTo O.contents (output_of self.old)
            (output_of self.new) from.now result }
        ensures input { input_of self.new ≡ input_of self.old }
    {
        if from.is_empty() {
            return Ok(());
        }
        let put = write_all(&mut self.output, from);
        if put.is_err() {
            self.faults = self.faults.saturating_add(1);
        }
        put
    }
}

impl<I: Read, O: Write> FilePort<I, O> {
    /// A file that couldn't be opened is None. No call has failed yet.
    pub fn new(input: Option<I>, output: Option<O>) -> FilePort<I, O>
        ensures input { input_of result ≡ input }
        ensures output { output_of result ≡ output }
        ensures none { file_port_end result ≡ untold 0 0 }
    {
        FilePort {
            input,
            output,
            faults: 0,
            closes: 0,
        }
    }
}

impl<F: Read + Write> FilePort<F, F> {
    /// Opens the input file, and makes the output file empty. No call has failed yet.
    pub fn open<R: Files<File = F>>(files: &R, input: &str, output: &str) -> FilePort<F, F>
        ensures none { file_port_end result ≡ untold 0 0 }
    {
        FilePort::new(fs::open(files, input).ok(), fs::create(files, output).ok())
    }
}

/// One read of the file. Without one it fails.
fn read_some<I: Read>(input: &mut Option<I>, into: &mut [u8]) -> Result<usize, Failed>
    ensures within { ReadsAtMost result into.new }
    ensures reads { ReadsFrom I.remaining input.old input.new result into.new }
{
    match input {
        Some(input) => input.read(into).map_err(|_| Failed),
        None => Err(Failed),
    }
}

/// Writes all of the bytes. Without a file it fails.
fn write_all<O: Write>(output: &mut Option<O>, from: &[u8]) -> Result<(), Failed>
    ensures writes { WritesTo O.contents output.old output.new from.now result }
{
    match output {
        Some(output) => write_whole(output, from),
        None => Err(Failed),
    }
}
