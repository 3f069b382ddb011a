//! Texts of expressions.
ghost use Rattle.std.specs.Prelude.{◌≡◌, IfOk, string_bytes};

use std::alloc::{AllocError, Global};
use std::marker::Model;
use std::rc::Rc;

/// A text. A contract sees the bytes of its UTF-8. Copies of a text share its bytes.
#[derive(Debug, Drop)]
pub struct Text {
    string: Rc<String>,
}

impl Model for Text {
    ghost use Rattle.std.specs.Prelude.{List, ℕ, string_bytes};

    ghost Value = { List ℕ };

    ghost view = { λ t. string_bytes t.string.value };
}

impl Text {
    /// The most bytes of a text that expressions join.
    pub const MAX_LEN: usize = 16777216;

    /// A text of this string.
    pub fn new(alloc: Global, string: String) -> Result<Text, AllocError>
        ensures { IfOk result (λ text. text ≡ string_bytes string) }
    {
        Ok(Text {
            string: Rc::new(alloc, string)?,
        })
    }

    /// The text as a `str`.
    pub fn as_str(&self) -> &str
        ensures { result.now ≡ self.now }
    {
        self.string.as_ref().as_str()
    }

    /// A copy of the text, which shares its bytes. It fails where the text has too many copies to count them.
    pub fn copy(&self) -> Result<Text, AllocError>
        ensures { IfOk result (λ text. text ≡ self.now) }
    {
        Ok(Text {
            string: self.string.clone()?,
        })
    }
}
