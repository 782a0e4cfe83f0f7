//! A text that grows.
ghost use Rattle.std.specs.Prelude.{◌≡◌, ◌<◌, [], ◌∷◌, ◌++◌, IfOk, OnOk};
ghost use Rattle.std.specs.Char.{encode_utf8};

use blobref::{NoMemory, Text};
use std::alloc::Global;
use std::marker::Model;

/// A text that grows. A contract sees it as the list of its bytes.
#[derive(Drop)]
pub struct Buffer {
    text: String,
}

impl Model for Buffer {
    ghost use Rattle.std.specs.Prelude.{ℕ, List, string_bytes};

    ghost Value = { List ℕ };

    ghost view = { λ b. string_bytes b.text };
}

impl Buffer {
    /// The empty text.
    pub fn new(alloc: Global) -> Buffer
        ensures { result ≡ [] }
    {
        Buffer {
            text: String::new(alloc),
        }
    }

    /// Puts a character at its end. After `NoMemory` nothing is said of the text.
    pub fn push(&mut self, c: char) -> Result<(), NoMemory>
        ensures { OnOk result (self.new ≡ self.old ++ encode_utf8 c) }
    {
        self.text.push(c)?;
        Ok(())
    }

    /// Puts a text at its end. After `NoMemory` nothing is said of the text.
    pub fn append(&mut self, text: &str) -> Result<(), NoMemory>
        ensures { OnOk result (self.new ≡ self.old ++ text.now) }
    {
        self.text.push_str(text)?;
        Ok(())
    }

    /// `push` of an ASCII character.
    pub fn push_ascii(&mut self, byte: u8) -> Result<(), NoMemory>
        requires { byte < 128 }
        ensures { OnOk result (self.new ≡ self.old ++ byte ∷ []) }
    {
        self.push(char::from(byte))
    }

    /// Another text with the same bytes.
    pub fn copy(&self, alloc: Global) -> Result<Buffer, NoMemory>
        ensures { IfOk result (λ copy. copy ≡ self.now) }
    {
        let text = String::from_str(alloc, self.text.as_str())?;
        Ok(Buffer { text })
    }

    /// What it has, as a text that no longer grows.
    pub fn text(&self, alloc: Global) -> Result<Text, NoMemory>
        ensures { IfOk result (λ text. text ≡ self.now) }
    {
        Text::copy(alloc, self.text.as_str())
    }

    /// The bytes that it has.
    pub fn bytes(&self) -> &[u8]
        ensures { result.now ≡ self.now }
    {
        self.text.as_bytes()
    }
}
