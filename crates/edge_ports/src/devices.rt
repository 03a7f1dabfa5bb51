ghost use Rattle.std.specs.Prelude.{◌≡◌, ◌+◌, ◌^◌, ◌≤◌, ◌<◌, ◌↔◌, ◌⊎◌, [], ◌∷◌, map, false, length, IsTrue, IfOk, OnOk, OnErr};
ghost use Rattle.edge_ports.specs.End.{Puts, Takes};
ghost use Rattle.edge_ports.specs.Records.{IsClose, IsRead, IsWrite, ServesAt};
ghost use Rattle.edge_ports.specs.Seen.{closed_at, end_at, is_shut, open_among, open_ports, port_shut, seen, spare, CanRead, CanWrite, IsOpen, OthersStay, SameBut};

use crate::failed::Failed;
use crate::port::Port;
use crate::records::{close_record, read_record, write_record};
use crate::sink::Sink;
use crate::source::Source;
use guest_words::{Bytes, MemoryWant, Record};

/// The devices of a run. Descriptor 0 is the input, 1 the output, 2 the error output, and those
/// from 3 on are the ports.
#[derive(Drop)]
pub struct Devices<S, T, P = Box<dyn Port + Send>> {
    pub input: S,
    pub out: T,
    pub err: T,
    /// Which of the descriptors 0 to 2 are closed.
    pub closed: [bool; 3],
    /// The ports, of which the closed ones stay, so that their bytes can be told to the end.
    pub ports: Vec<P>,
    /// The descriptors of the closed ports, in the order of their closing.
    pub shut: Vec<u64>,
}

impl<S: Source, T: Sink, P: Port> Devices<S, T, P> {
    /// These objects, nothing closed.
    pub fn new(input: S, out: T, err: T, ports: Vec<P>) -> Devices<S, T, P>
        ensures input { result.input ≡ input }
        ensures out { result.out ≡ out }
        ensures err { result.err ≡ err }
        ensures ports { result.ports ≡ ports }
        ensures closed { result.closed ≡ false ∷ false ∷ false ∷ [] }
        ensures shut { result.shut.items ≡ [] }
    {
        let alloc = *ports.allocator();
        Devices {
            input,
            out,
            err,
            closed: [false; 3],
            ports,
            shut: Vec::new(alloc),
        }
    }

    /// Whether the descriptor is 0 or at least 3, is in range and isn't closed.
    pub fn can_read(&self, fd: u64) -> bool
        ensures value { IsTrue result ↔ CanRead (seen S.end T.end P.end self.now) fd }
    {
        (fd == 0 || fd >= 3) && self.is_open(fd)
    }

    /// Whether the descriptor is at least 1, is in range and isn't closed.
    pub fn can_write(&self, fd: u64) -> bool
        ensures value { IsTrue result ↔ CanWrite (seen S.end T.end P.end self.now) fd }
    {
        fd >= 1 && self.is_open(fd)
    }

    /// Whether the descriptor is in range and isn't closed.
    pub fn is_open(&self, fd: u64) -> bool
        ensures value { IsTrue result ↔ IsOpen (seen S.end T.end P.end self.now) fd }
    {
        fd < 3 + self.ports.len() as u64 && !self.is_shut(fd)
    }

    fn is_shut(&self, fd: u64) -> bool
        ensures value { result ≡ is_shut (seen S.end T.end P.end self.now) fd }
    {
        if fd < 3 {
            self.closed[fd as usize]
        } else {
            self.shut.contains(&fd)
        }
    }

    /// Reads at most `asked` bytes. Memory is taken before the device is called, and after an Err
    /// all is as before.
    pub fn read(&mut self, fd: u64, asked: u32) -> Result<Record, MemoryWant>
        requires open { CanRead (seen S.end T.end P.end self.old) fd }
        requires size { (1 ≤ asked) × (asked ≤ 65536) }
        ensures fits { IfOk result (IsRead fd asked) }
        ensures serves { IfOk result
            (ServesAt fd (seen S.end T.end P.end self.old) (seen S.end T.end P.end self.new)) }
        ensures same { SameBut fd (seen S.end T.end P.end self.old)
            (seen S.end T.end P.end self.new) }
        ensures others { OthersStay fd self.old self.new }
        ensures spare { spare self.new ≡ spare self.old }
        ensures err { OnErr result (self.new ≡ self.old) }
    {
        let mut places = vec![in *self.ports.allocator(); 0u8; asked as usize]?;
        let taken = self.take(fd, &mut places);
        Ok(read_record(fd, taken, places))
    }

    /// Writes the bytes. It takes no memory.
    pub fn write(&mut self, fd: u64, bytes: Bytes) -> Record
        requires open { CanWrite (seen S.end T.end P.end self.old) fd }
        requires size { (1 ≤ length bytes) × (length bytes ≤ 65536) }
        ensures fits { IsWrite fd bytes result }
        ensures serves { ServesAt fd (seen S.end T.end P.end self.old)
            (seen S.end T.end P.end self.new) result }
        ensures same { SameBut fd (seen S.end T.end P.end self.old)
            (seen S.end T.end P.end self.new) }
        ensures others { OthersStay fd self.old self.new }
        ensures spare { spare self.new ≡ spare self.old }
    {
        let put = self.put(fd, bytes.items());
        write_record(fd, put, bytes)
    }

    /// Closes the descriptor, and ends the connection of a port. It takes no memory.
    pub fn close(&mut self, fd: u64) -> Record
        requires open { IsOpen (seen S.end T.end P.end self.old) fd }
        requires room { 3 ≤ fd → 1 ≤ spare self.old }
        ensures fits { IsClose fd result }
        ensures closes { seen S.end T.end P.end self.new
            ≡ closed_at fd (seen S.end T.end P.end self.old) }
        ensures spare { 3 ≤ fd → spare self.new + 1 ≡ spare self.old }
        ensures others { OthersStay fd self.old self.new }
        ensures low { fd < 3 → self.new ≡ (record self.old { closed = self.new.closed }) }
    {
        if fd < 3 {
            self.closed[fd as usize] = true;
        } else {
            self.shut_port(fd);
        }
        close_record(*self.shut.allocator(), fd)
    }

    /// Makes room for the closing of each port that isn't closed.
    pub fn ready(&mut self) -> Result<(), MemoryWant>
        ensures ok { OnOk result (open_ports (seen S.end T.end P.end self.new) ≤ spare self.new) }
        ensures same { seen S.end T.end P.end self.new ≡ seen S.end T.end P.end self.old }
        ensures others { self.new ≡ (record self.old { shut = self.new.shut }) }
    {
        let open = open_among(&self.shut, self.ports.len());
        self.shut.reserve(open)?;
        Ok(())
    }

    fn take(&mut self, fd: u64, into: &mut [u8]) -> Result<usize, Failed>
        requires open { CanRead (seen S.end T.end P.end self.old) fd }
        ensures takes { Takes (end_at (seen S.end T.end P.end self.old) fd)
            (end_at (seen S.end T.end P.end self.new) fd) into.new result }
        ensures same { SameBut fd (seen S.end T.end P.end self.old)
            (seen S.end T.end P.end self.new) }
        ensures others { OthersStay fd self.old self.new }
        ensures shut { self.new.shut ≡ self.old.shut }
    {
        if fd == 0 {
            self.input.take(into)
        } else {
            self.ports[(fd - 3) as usize].take(into)
        }
    }

    fn put(&mut self, fd: u64, from: &[u8]) -> Result<(), Failed>
        requires open { CanWrite (seen S.end T.end P.end self.old) fd }
        ensures puts { Puts (end_at (seen S.end T.end P.end self.old) fd)
            (end_at (seen S.end T.end P.end self.new) fd) from.now result }
        ensures same { SameBut fd (seen S.end T.end P.end self.old)
            (seen S.end T.end P.end self.new) }
        ensures others { OthersStay fd self.old self.new }
        ensures shut { self.new.shut ≡ self.old.shut }
    {
        match fd {
            1 => self.out.put(from),
            2 => self.err.put(from),
            _ => self.ports[(fd - 3) as usize].put(from),
        }
    }

    fn shut_port(&mut self, fd: u64)
        requires port { (3 ≤ fd) × (fd < 3 + length self.old.ports.items) }
        requires room { 1 ≤ spare self.old }
        ensures closes { seen S.end T.end P.end self.new
            ≡ port_shut fd (seen S.end T.end P.end self.old) }
        ensures others { OthersStay fd self.old self.new }
        ensures spare { spare self.new + 1 ≡ spare self.old }
    {
        self.ports[(fd - 3) as usize].close();
        self.shut.push_reserved(fd);
    }
}

/// How many of so many ports aren't among those that were shut.
fn open_among(shut: &[u64], ports: usize) -> usize
    requires size { 3 + ports < 2 ^ 64 }
    ensures value { result ≡ open_among shut.now ports }
{
    (3..3 + ports as u64)
        .filter(|fd| !shut.contains(fd))
        .count()
}
