ghost use Rattle.std.specs.Prelude.{◌≡◌, IfOk, IfSome, length};
ghost use Rattle.clap.specs.Words.{first_of, found_of, one_of, rows_of};
ghost use Rattle.program_words.specs.Fits.{HasText, IsNumber, IsSignedNumber};
ghost use Rattle.program_words.specs.Ports.{first_bad_port};
ghost use Rattle.program_words.specs.Words.{number_in, port_words, ports_in, signed_in, text_in};

use crate::port_name::PortNames;
use crate::port_word::{first_bad_port, name, names_of};
use clap::ArgMatches;
use guest_words::Name;
use std::alloc::{AllocError, Global};

/// The text of a positional that has to stand.
pub fn text_of(alloc: Global, matches: &ArgMatches<'_>, id: &str) -> Result<Name, AllocError>
    requires given { HasText id.now (rows_of (found_of matches.now)) }
    ensures ok { IfOk result (λ name. name ≡ text_in id.now (rows_of (found_of matches.now))) }
{
    name(alloc, matches.get_str(id).unwrap())
}

/// The text of an option, where it is given.
pub fn option_of(
    alloc: Global,
    matches: &ArgMatches<'_>,
    id: &str,
) -> Result<Option<Name>, AllocError>
    ensures ok { IfOk result (λ name. name ≡ first_of id.now (rows_of (found_of matches.now))) }
{
    match matches.get_str(id) {
        Some(text) => Ok(Some(name(alloc, text)?)),
        None => Ok(None),
    }
}

/// The number of an option or a positional, where it is given.
pub fn number_of(matches: &ArgMatches<'_>, id: &str) -> Option<u64>
    requires read { IfSome (one_of id.now (rows_of (found_of matches.now))) IsNumber }
    ensures value { result ≡ number_in id.now (rows_of (found_of matches.now)) }
{
    matches.get_one::<u64>(id)
}

/// The number of an option that may be negative, where it is given.
pub fn signed_of(matches: &ArgMatches<'_>, id: &str) -> Option<i64>
    requires read { IfSome (one_of id.now (rows_of (found_of matches.now))) IsSignedNumber }
    ensures value { result ≡ signed_in id.now (rows_of (found_of matches.now)) }
{
    matches.get_one::<i64>(id)
}

/// The number of the first port word that is none, counted from 0.
pub fn bad_port(matches: &ArgMatches<'_>) -> Option<usize>
    ensures value { result ≡ first_bad_port (port_words (rows_of (found_of matches.now))) }
{
    match matches.get_strs("ports") {
        Some(words) => first_bad_port(words),
        None => None,
    }
}

/// How many ports are named.
pub fn port_count(matches: &ArgMatches<'_>) -> u64
    ensures value { result ≡ length (port_words (rows_of (found_of matches.now))) }
{
    match matches.get_strs("ports") {
        Some(words) => words.len() as u64,
        None => 0,
    }
}

/// The files of the ports that are named.
pub fn ports_of(alloc: Global, matches: &ArgMatches<'_>) -> Result<PortNames, AllocError>
    ensures ok { IfOk result (λ names. names ≡ ports_in (rows_of (found_of matches.now))) }
{
    match matches.get_strs("ports") {
        Some(words) => names_of(alloc, words),
        None => Ok(PortNames::of(Vec::new(alloc))),
    }
}
