ghost use Rattle.std.specs.Prelude.{◌≡◌, ◌^◌, ◌-◌, ◌<◌, ℕ, List, [], Some, IfOk};
ghost use Rattle.elf_symbols.specs.Tallies.{AreTallies, tally_at, tally_after};
ghost use Rattle.elf_symbols.specs.declared.tally.Tally.{Tally};

use crate::tally::Tally;
use std::alloc::{AllocError, Global};
use std::collections::HashMap;

/// Tallies of some names.
#[derive(Drop)]
pub struct Tallies<'a> {
    pub by_name: HashMap<&'a str, Tally>,
    /// No name has more bytes.
    pub longest: usize,
}

impl<'a> Tallies<'a> {
    /// Tallies of these names over no symbols.
    pub fn of(alloc: Global, names: &[&'a str]) -> Result<Tallies<'a>, AllocError>
        ensures { IfOk result (AreTallies [] 0) }
    {
        let none = Tally { count: 0, first: 0 };
        let mut by_name = HashMap::new(alloc);
        let mut longest = 0;
        for name in names {
            by_name.insert(*name, none)?;
            longest = longest.max(name.len());
        }
        Ok(Tallies { by_name, longest })
    }

    /// Adds a symbol with this name and value, if the name is one of them.
    pub fn add(&mut self, name: &str, value: u64)
        requires { (other : List ℕ) (tally : Tally)
            → tally_at self.old other ≡ Some tally → tally.count < 2 ^ 64 - 1 }
        ensures longest { self.new.longest ≡ self.old.longest }
        ensures names { (other : List ℕ)
            → tally_at self.new other ≡ tally_after self.old name.now value other }
    {
        if let Some(tally) = self.by_name.get_mut(name) {
            *tally = tally.more(value);
        }
    }
}
