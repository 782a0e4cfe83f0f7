//! What a command is told by its line.
ghost use Rattle.std.specs.Prelude.{◌≡◌, ◌≢◌, ◌≤◌, []};
ghost use Rattle.perkeep_words.specs.Table.{count_max};

use std::marker::Model;

/// A text of a line, also the empty one. A contract sees it as its bytes.
#[derive(Drop)]
pub struct Word<'a> {
    text: &'a str,
}

impl<'a> Model for Word<'a> {
    ghost use Rattle.std.specs.Prelude.{ℕ, List};

    ghost Value = { List ℕ };

    ghost view = { λ w. w.text.now };
}

impl<'a> Word<'a> {
    /// The word of this text.
    pub fn of(text: &'a str) -> Word<'a>
        ensures { result ≡ text.now }
    {
        Word { text }
    }

    /// Its text.
    pub fn as_str(&self) -> &'a str
        ensures { result.now ≡ self.now }
    {
        self.text
    }
}

/// A text of a line that isn't empty. A contract sees it as its bytes.
#[derive(Drop)]
pub struct NonEmptyWord<'a> {
    text: &'a str,
}

impl<'a> Model for NonEmptyWord<'a> {
    ghost use Rattle.std.specs.Prelude.{◌≢◌, ℕ, List, []};

    ghost Value = { List ℕ };

    ghost view = { λ w. w.text.now };

    ghost invariant = { λ w. w.text.now ≢ [] };
}

impl<'a> NonEmptyWord<'a> {
    /// The filled word of this text.
    pub fn of(text: &'a str) -> NonEmptyWord<'a>
        requires { text.now ≢ [] }
        ensures { result ≡ text.now }
    {
        NonEmptyWord { text }
    }

    /// Its text.
    pub fn as_str(&self) -> &'a str
        ensures text { result.now ≡ self.now }
        ensures filled { result.now ≢ [] }
    {
        self.text
    }
}

/// How many blobs a line of `load` asks for: at most 100,000. A contract sees it as that number.
#[derive(Drop)]
pub struct BlobCount {
    count: u64,
}

impl Model for BlobCount {
    ghost use Rattle.std.specs.Prelude.{◌≤◌, ℕ};
    ghost use Rattle.perkeep_words.specs.Table.{count_max};

    ghost Value = { ℕ };

    ghost view = { λ c. c.count };

    ghost invariant = { λ c. c.count ≤ count_max };
}

impl BlobCount {
    /// The count of this number.
    pub fn of(count: u64) -> BlobCount
        requires { count ≤ count_max }
        ensures { result ≡ count }
    {
        BlobCount { count }
    }

    /// Its number.
    pub fn get(&self) -> u64
        ensures number { result ≡ self.now }
        ensures most { result ≤ count_max }
    {
        self.count
    }
}
