//! The texts of a profile.
ghost use Rattle.std.specs.Prelude.{◌≡◌, IfOk};

use pos_service::NoMemory;
use std::alloc::Global;
use std::fmt;
use std::marker::Model;

/// The name of a device, or a key of a profile. Contracts see its bytes.
#[derive(Debug, Drop)]
pub struct Text {
    content: String,
}

impl Model for Text {
    ghost use Rattle.std.specs.Prelude.{List, ℕ, string_bytes};

    ghost Value = { List ℕ };

    ghost view = { λ text. string_bytes text.content };
}

impl Text {
    /// Returns a copy of this text.
    ///
    /// # Errors
    ///
    /// [`NoMemory`] if memory ran out.
    pub fn copy_of(alloc: Global, content: &str) -> Result<Self, NoMemory>
        ensures { IfOk result (λ text. text ≡ content.now) }
    {
        match String::from_str(alloc, content) {
            Ok(content) => Ok(Text { content }),
            Err(_) => Err(NoMemory),
        }
    }

    /// Returns the text.
    pub fn as_str(&self) -> &str
        ensures { result.now ≡ self.now }
    {
        self.content.as_str()
    }

    /// Returns its bytes.
    pub fn as_bytes(&self) -> &[u8]
        ensures { result.now ≡ self.now }
    {
        self.content.as_bytes()
    }
}

impl fmt::Display for Text {
    fn fmt<W: fmt::Write>(&self, f: &mut fmt::Formatter<W>) -> fmt::Result {
        let content = self.as_str();
        write!(f, "{content}")
    }
}
