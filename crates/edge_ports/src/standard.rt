ghost use Rattle.edge_ports.specs.Streams.{standard_contents};

use std::io;
use std::io::Write;

/// The standard output or the standard error output, as one type.
#[derive(Drop)]
pub enum Standard<O = io::Stdout, E = io::Stderr> {
    Out(O),
    Err(E),
}

impl<O: Write, E: Write> Write for Standard<O, E> {
    ghost contents = { standard_contents O.contents E.contents };

    fn write(&mut self, from: &[u8]) -> io::Result<usize> {
        match self {
            Standard::Out(out) => out.write(from),
            Standard::Err(err) => err.write(from),
        }
    }

    fn flush(&mut self) -> io::Result<()> {
        match self {
            Standard::Out(out) => out.flush(),
            Standard::Err(err) => err.flush(),
        }
    }
}
