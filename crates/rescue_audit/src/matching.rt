//! The files of all devices against a history.
ghost use Rattle.std.specs.Prelude.{◌≡◌, ◌+◌, IfOk, option_map};
ghost use Rattle.edge_ports.specs.DevicesMatch.{records_at};
ghost use Rattle.run_history.specs.Counts.{records_of_all};
ghost use Rattle.rescue_audit.specs.Matches.{first_broken, first_unmatched, gives, port_rules, takes_from};

use crate::files::{AuditFiles, PortFile};
use crate::walk::{Side, left_after_all};
use guest_words::MemoryWant;
use run_history::Entry;

/// Whether the reads of a device took their bytes from the front of a file.
fn takes(entries: &[Entry], fd: u64, file: &[u8]) -> bool
    ensures value { result ≡ takes_from file.now (records_at fd (records_of_all entries.now)) }
{
    left_after_all(Side::Input, fd, file, entries).is_some()
}

/// Whether the writes of a device gave the bytes of a file.
fn gives(entries: &[Entry], fd: u64, file: &[u8]) -> bool
    ensures value { result ≡ gives file.now (records_at fd (records_of_all entries.now)) }
{
    match left_after_all(Side::Output, fd, file, entries) {
        Some(left) => left.is_empty(),
        None => false,
    }
}

/// The sum, or want of memory where no list is so long.
fn sum(a: u64, b: u64) -> Result<u64, MemoryWant>
    ensures ok { IfOk result (λ sum. sum ≡ a + b) }
{
    a.checked_add(b).ok_or(MemoryWant)
}

/// The number of the first file of a port that the calls don't match; the first port's input has
/// number 3.
fn first_of_ports(ports: &[PortFile], entries: &[Entry]) -> Result<Option<u64>, MemoryWant>
    ensures ok { IfOk result (λ found. found ≡ option_map (λ number. number + 3)
        (first_broken (port_rules 3 ports.now (records_of_all entries.now)))) }
{
    let mut fd = 3;
    let mut input = 3;
    for port in ports {
        let output = sum(input, 1)?;
        if !takes(entries, fd, port.input.items()) {
            return Ok(Some(input));
        }
        if !gives(entries, fd, port.output.items()) {
            return Ok(Some(output));
        }
        fd = sum(fd, 1)?;
        input = sum(output, 1)?;
    }
    Ok(None)
}

/// The number of the first file that the calls of entries don't match.
pub(crate) fn first_unmatched(
    files: &AuditFiles,
    entries: &[Entry],
) -> Result<Option<u64>, MemoryWant>
    ensures ok { IfOk result
        (λ found. found ≡ first_unmatched files.now (records_of_all entries.now)) }
{
    if !takes(entries, 0, files.input.items()) {
        return Ok(Some(0));
    }
    if !gives(entries, 1, files.out.items()) {
        return Ok(Some(1));
    }
    if !gives(entries, 2, files.err.items()) {
        return Ok(Some(2));
    }
    first_of_ports(files.ports.items(), entries)
}
