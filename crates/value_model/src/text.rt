ghost use Rattle.std.specs.Prelude.{◌≡◌, ◌<◌, ◌≤◌, ◌^◌, length, IfOk, IsErrOf};
ghost use Rattle.value_model.specs.Limits.{is_long_text, is_reserved_text};

use std::alloc::{AllocError, Global};
use std::marker::Model;
use std::rc::Rc;
use thiserror::Error;

/// The most bytes of a text.
const MAX_BYTES: usize = 1 << 20;

/// The most bytes of a text that is a key of an object or a Map, or a member of a Set.
const MAX_KEY_BYTES: usize = 1024;

/// Why there is no such text.
#[derive(Debug, Drop, Error)]
pub enum TextFault {
    /// It has more than 2^20 bytes.
    #[error("the text has more than 1,048,576 bytes")]
    TooLong,
    /// Memory ran out.
    #[error("out of memory")]
    Memory,
}

/// A text of at most 2^20 bytes of UTF-8.
///
/// A contract sees it as its bytes.
#[derive(Debug, Drop)]
pub struct Text {
    /// Shared by its copies.
    text: Rc<String>,
}

impl Model for Text {
    ghost use Rattle.std.specs.Prelude.{List, ℕ, string_bytes, length, ◌≤◌, ◌^◌};

    ghost Value = { List ℕ };

    ghost view = { λ t. string_bytes t.text.value };

    ghost invariant = { λ t. length (string_bytes t.text.value) ≤ 2 ^ 20 };
}

impl Text {
    /// The text of these bytes; `TooLong` exactly where they are more than 2^20.
    pub fn of(alloc: Global, s: &str) -> Result<Text, TextFault>
        ensures ok { IfOk result (λ t. t ≡ s.now) }
        ensures long { 2 ^ 20 < length s.now → result ≡ Err TextFault.TooLong }
        ensures only { IsErrOf result TextFault.TooLong → 2 ^ 20 < length s.now }
    {
        if s.len() > MAX_BYTES {
            return Err(TextFault::TooLong);
        }
        let text = String::from_str(alloc, s)?;
        match Rc::new(alloc, text) {
            Ok(text) => Ok(Text { text }),
            Err(_) => Err(TextFault::Memory),
        }
    }

    /// The same text, whose bytes are shared. The error is want of memory, as a share of an `Rc` may answer it.
    pub fn copy(&self, _alloc: Global) -> Result<Text, AllocError>
        ensures { IfOk result (λ t. t ≡ self.now) }
    {
        Ok(Text {
            text: self.text.clone()?,
        })
    }

    /// The text's characters.
    pub fn as_str(&self) -> &str
        ensures value { result.now ≡ self.now }
        ensures short { length self.now ≤ 2 ^ 20 }
    {
        self.text.as_ref().as_str()
    }

    /// Whether it has more than 1,024 bytes, so that no key may be it.
    pub fn is_long(&self) -> bool
        ensures { result ≡ is_long_text self.now }
    {
        self.as_str().len() > MAX_KEY_BYTES
    }

    /// Whether it is a name through which a script could reach a prototype: `__proto__`, `constructor` or `prototype`.
    pub fn is_reserved(&self) -> bool
        ensures { result ≡ is_reserved_text self.now }
    {
        let name = self.as_str();
        name == "__proto__" || name == "constructor" || name == "prototype"
    }
}

impl From<AllocError> for TextFault {
    ghost use Rattle.value_model.specs.declared.text.TextFault.TheVariants.{Memory};

    ghost from_gives = { λ _ e. e ≡ Memory };

    fn from(_: AllocError) -> Self {
        TextFault::Memory
    }
}
