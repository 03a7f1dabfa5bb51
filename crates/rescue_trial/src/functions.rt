//! Where the functions of a program begin.
ghost use Rattle.std.specs.Prelude.{◌≡◌, ℕ, ◌+◌, ◌==◌, nat_eq, nat_lt, IfOk};
ghost use Rattle.std.specs.HashSet.{contains_by};
ghost use Rattle.std.specs.List.{list_any};
ghost use Rattle.rescue_trial.specs.Begins.{begins};
ghost use Rattle.rescue_trial.specs.Path.{is_function, is_in_text};

use elf_symbols::{Symbol, Symbols};
use guest_words::{Load, Loads, MemoryWant};
use std::alloc::Global;
use std::collections::HashSet;

/// The functions of a program that begin in executable loads.
#[derive(Drop)]
pub(crate) struct Functions<'a> {
    pub loads: &'a Loads,
    /// Where they begin, and others of no such load.
    pub values: HashSet<u64>,
}

impl<'a> Functions<'a> {
    /// The functions of a program, by its loads and its symbols.
    pub fn of(
        alloc: Global,
        loads: &'a Loads,
        symbols: &Symbols,
    ) -> Result<Functions<'a>, MemoryWant>
        ensures ok { IfOk result (λ f. begins f ≡ is_function loads.now symbols.now) }
    {
        let symbols = symbols.to_vec(alloc)?;
        let values = values_of(alloc, &symbols)?;
        Ok(Functions { loads, values })
    }

    /// Whether a function begins at an address.
    pub fn has(&self, address: u64) -> bool
        ensures value { result ≡ begins self.now address }
    {
        is_in_text(self.loads.items(), address) && self.values.contains(&address)
    }
}

fn values_of(alloc: Global, symbols: &[Symbol]) -> Result<HashSet<u64>, MemoryWant>
    ensures ok { IfOk result (λ values. (a : ℕ)
        → contains_by (λ v. nat_eq a v) values ≡ list_any (λ s. s.value == a) symbols.now) }
{
    let mut values = HashSet::new(alloc);
    for symbol in symbols {
        values.insert(symbol.value)?;
    }
    Ok(values)
}

/// Whether an address is in an executable load.
fn is_in_text(loads: &[Load], address: u64) -> bool
    ensures value { result ≡ is_in_text loads.now address }
{
    loads.iter().any(|load| load.rights.exec
        && load.address <= address
        && is_before_end(load, address))
}

fn is_before_end(load: &Load, address: u64) -> bool
    ensures value { result ≡ nat_lt address (load.now.address + load.now.size) }
{
    u128::from(address) < u128::from(load.address) + u128::from(load.size)
}
