//! What a claim does with a value.
ghost use Rattle.std.specs.Prelude.{◌≡◌};
ghost use Rattle.perkeep_words.specs.Changes.{change_in};

/// What a claim does with a value of an attribute (docs/claims.md).
#[derive(Clone, Copy, Debug, PartialEq, Eq)]
pub enum Change {
    /// `set`
    Set,
    /// `add`
    Add,
    /// `del`
    Del,
}

impl Change {
    /// The change that a word names. None where it names none.
    pub fn read(word: &str) -> Option<Change>
        ensures { result ≡ change_in word.now }
    {
        match word {
            "set" => Some(Change::Set),
            "add" => Some(Change::Add),
            "del" => Some(Change::Del),
            _ => None,
        }
    }
}
