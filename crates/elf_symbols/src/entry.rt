ghost use Rattle.std.specs.Prelude.{◌≡◌, ◌+◌, ◌≤◌, ◌++◌, ◌&&◌, [], length, nat_le, OnOk, if◌then◌else◌};
ghost use Rattle.std.specs.Option.{option_to_list};
ghost use Rattle.std.specs.Str.{bytes_eq};
ghost use Rattle.elf_symbols.specs.SymbolTable.{is_function, name_of, symbol_at};

use crate::strings::{before_zero, ends_within, is_before_zero};
use crate::symbol::Symbol;
use crate::symbol_name::SymbolName;
use elf_loader::fields::{tail, u8_at, u16_at, u32_at, u64_at};
use std::alloc::AllocError;

/// Whether the symbol at a place of the file is a function.
pub fn is_function(file: &[u8], entry: usize) -> bool
    requires { entry + 24 ≤ length file.now }
    ensures { result ≡ is_function file.now entry }
{
    u8_at(file, entry + 4) & 15 == 2 && u16_at(file, entry + 6) != 0
}

/// The name of the symbol at a place of the file, from the bytes of the section with the names.
fn name_of<'a>(file: &[u8], strings: &'a [u8], entry: usize) -> &'a [u8]
    requires { entry + 24 ≤ length file.now }
    ensures { result.now ≡ name_of file.now strings.now entry }
{
    before_zero(tail(strings, u64::from(u32_at(file, entry))))
}

/// Whether the symbol at a place of the file is a function of this name. However long its own name
/// is, no more bytes are looked at than this one has.
pub fn is_named(file: &[u8], strings: &[u8], entry: usize, name: &str) -> bool
    requires { entry + 24 ≤ length file.now }
    ensures { result ≡ (is_function file.now entry
        && bytes_eq (name_of file.now strings.now entry) name.now) }
{
    is_function(file, entry)
        && is_before_zero(
            tail(strings, u64::from(u32_at(file, entry))),
            name.as_bytes(),
        )
}

/// The symbol at a place of the file, if it is a function whose name is UTF-8.
fn symbol_at<'a>(file: &[u8], strings: &'a [u8], entry: usize) -> Option<Symbol<'a>>
    requires { entry + 24 ≤ length file.now }
    ensures { option_to_list result ≡ symbol_at file.now strings.now entry }
{
    if !is_function(file, entry) {
        return None;
    }
    let Ok(text) = str::from_utf8(name_of(file, strings, entry)) else {
        return None;
    };
    Some(Symbol {
        value: u64_at(file, entry + 8),
        size: u64_at(file, entry + 16),
        name: SymbolName::of(text),
    })
}

/// The symbol at a place of the file, if it is a function whose name is UTF-8 and has no more bytes
/// than these. However long it is, no more of it is looked at.
pub fn short_symbol_at<'a>(
    file: &[u8],
    strings: &'a [u8],
    entry: usize,
    longest: usize,
) -> Option<Symbol<'a>>
    requires { entry + 24 ≤ length file.now }
    ensures { option_to_list result
        ≡ (if nat_le (length (name_of file.now strings.now entry)) longest
        then symbol_at file.now strings.now entry else []) }
{
    if ends_within(tail(strings, u64::from(u32_at(file, entry))), longest) {
        symbol_at(file, strings, entry)
    } else {
        None
    }
}

/// Adds the symbol at a place of the file, if it is a function whose name is UTF-8.
pub fn add_symbol<'a>(
    symbols: &mut Vec<Symbol<'a>>,
    file: &[u8],
    strings: &'a [u8],
    entry: usize,
) -> Result<(), AllocError>
    requires { entry + 24 ≤ length file.now }
    ensures { OnOk result
        (symbols.new.items ≡ symbols.old.items ++ symbol_at file.now strings.now entry) }
{
    if let Some(symbol) = symbol_at(file, strings, entry) {
        symbols.push(symbol)?;
    }
    Ok(())
}
