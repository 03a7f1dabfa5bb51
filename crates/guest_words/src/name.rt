ghost use Rattle.std.specs.Prelude.{◌≡◌, string_bytes};

use std::marker::Model;

/// A text, as the name of a file or of a symbol. Contracts see its UTF-8 bytes.
#[derive(Drop)]
pub struct Name {
    text: String,
}

impl Model for Name {
    ghost use Rattle.std.specs.Prelude.{List, ℕ, string_bytes};

    ghost Value = { List ℕ };

    ghost view = { λ n. string_bytes n.text };
}

impl Name {
    /// The text of the `String`, which is kept as it is.
    pub fn of(text: String) -> Name
        ensures list { result ≡ string_bytes text }
    {
        Name { text }
    }

    /// The text.
    pub fn items(&self) -> &str
        ensures list { result.now ≡ self.now }
    {
        self.text.as_str()
    }
}
