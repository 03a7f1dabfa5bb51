ghost use Rattle.std.specs.Prelude.{◌≡◌};

use std::marker::Model;

/// The name of a symbol, which lies in the file. Contracts see its UTF-8 bytes.
#[derive(Drop)]
pub struct SymbolName<'a> {
    text: &'a str,
}

impl<'a> Model for SymbolName<'a> {
    ghost use Rattle.std.specs.Prelude.{List, ℕ};

    ghost Value = { List ℕ };

    ghost view = { λ n. n.text.now };
}

impl<'a> SymbolName<'a> {
    /// The name that is this text.
    pub fn of(text: &'a str) -> SymbolName<'a>
        ensures list { result ≡ text.now }
    {
        SymbolName { text }
    }

    /// The text.
    pub fn text(&self) -> &'a str
        ensures list { result.now ≡ self.now }
    {
        self.text
    }
}
