//! An owned text.

ghost use Rattle.std.specs.Prelude.{◌≡◌, IfOk};

use crate::items::Items;
use crate::memory::Memory;
use std::alloc::Global;
use std::marker::Model;

/// An owned text, seen as its bytes.
#[derive(Debug, Drop)]
pub struct Text {
    text: String,
}

/// A list of texts.
pub type TextList = Items<Text>;

impl Model for Text {
    ghost use Rattle.std.specs.Prelude.{List, ℕ, string_bytes};

    ghost Value = { List ℕ };

    ghost view = { λ t. string_bytes t.text };
}

impl Text {
    /// The same text, owned.
    pub fn of(alloc: Global, text: &str) -> Result<Text, Memory>
        ensures { IfOk result (λ t. t ≡ text.now) }
    {
        Ok(Text {
            text: String::from_str(alloc, text)?,
        })
    }

    /// The text's bytes.
    pub fn bytes(&self) -> &[u8]
        ensures { result.now ≡ self.now }
    {
        self.text.as_bytes()
    }

    /// The text.
    pub fn as_str(&self) -> &str
        ensures { result.now ≡ self.now }
    {
        self.text.as_str()
    }
}
