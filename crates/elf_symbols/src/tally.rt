ghost use Rattle.std.specs.Prelude.{◌≡◌, ◌^◌, ◌-◌, ◌<◌, List, ℕ};
ghost use Rattle.elf_symbols.specs.declared.symbol.Symbol.{Symbol};
ghost use Rattle.elf_symbols.specs.Find.{found_of};
ghost use Rattle.elf_symbols.specs.Tallies.{IsTally, more};

use crate::found::Found;

/// How many symbols have a name, and the value of the first of them.
#[derive(Clone, Copy, Debug)]
pub struct Tally {
    pub count: u64,
    pub first: u64,
}

impl Tally {
    /// The tally with one more symbol, which has this value.
    pub fn more(self, value: u64) -> Tally
        requires { self.count < 2 ^ 64 - 1 }
        ensures { result ≡ more value self }
    {
        Tally {
            count: self.count + 1,
            first: if self.count == 0 { value } else { self.first },
        }
    }

    /// What it says of its name.
    pub fn found(self) -> Found
        ensures { (symbols : List Symbol) (name : List ℕ)
            → IsTally symbols name self → result ≡ found_of symbols name }
    {
        match self.count {
            0 => Found::Absent,
            1 => Found::One(self.first),
            count => Found::Several(count),
        }
    }
}
