ghost use Rattle.std.specs.Prelude.{◌≡◌, IfOk, count_by, not, position, length, map, string_bytes};
ghost use Rattle.program_words.specs.Ports.{is_colon, is_port, port_named};

use crate::port_name::{PortName, PortNames};
use guest_words::Name;
use std::alloc::{AllocError, Global};

/// What stands before the first colon, and what stands behind it.
fn ends(word: &str) -> (&str, &str)
    ensures input { result.0.now ≡ (port_named word.now).input }
    ensures output { result.1.now ≡ (port_named word.now).output }
{
    match word.split_once(':') {
        Some(ends) => ends,
        None => (word, ""),
    }
}

fn colons(word: &str) -> usize
    ensures value { result ≡ count_by is_colon word.now }
{
    word.as_bytes().iter().filter(|byte| **byte == b':').count()
}

/// Whether the word has just one colon, with a byte at least on each side.
pub fn is_port(word: &str) -> bool
    ensures value { result ≡ is_port word.now }
{
    let (input, output) = ends(word);
    colons(word) == 1 && !input.is_empty() && !output.is_empty()
}

/// The number of the first word that is no port word, counted from 0.
pub fn first_bad_port(words: &[&str]) -> Option<usize>
    ensures value { result ≡ position (λ w. not (is_port w.now)) words.now }
{
    words.iter().position(|word| !is_port(word))
}

/// The text as a name.
pub fn name(alloc: Global, text: &str) -> Result<Name, AllocError>
    ensures ok { IfOk result (λ name. name ≡ text.now) }
{
    Ok(Name::of(String::from_str(alloc, text)?))
}

fn port_name(alloc: Global, word: &str) -> Result<PortName, AllocError>
    ensures ok { IfOk result (λ port. port ≡ port_named word.now) }
{
    let (input, output) = ends(word);
    Ok(PortName {
        input: name(alloc, input)?,
        output: name(alloc, output)?,
    })
}

/// The files that the port words name.
pub fn names_of(alloc: Global, words: &[&str]) -> Result<PortNames, AllocError>
    ensures ok { IfOk result (λ names.
        names ≡ map port_named (map (λ w. w.now) words.now)) }
{
    let mut names = Vec::with_capacity(alloc, words.len())?;
    for word in words {
        names.push(port_name(alloc, word)?)?;
    }
    Ok(PortNames::of(names))
}
