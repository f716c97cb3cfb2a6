ghost use Rattle.std.specs.Prelude.{◌≡◌, IfOk};

use owned_lists::NoMemory;
use std::alloc::Global;
use std::marker::Model;

/// A text that names a file.
#[derive(Debug, Drop)]
pub struct Path {
    text: String,
}

impl Model for Path {
    ghost use Rattle.std.specs.Prelude.{ℕ, List, string_bytes};

    ghost Value = { List ℕ };

    ghost view = { λ path. string_bytes path.text };
}

impl Path {
    /// A copy of this text.
    pub fn from_str(alloc: Global, text: &str) -> Result<Path, NoMemory>
        ensures { IfOk result (λ path. path ≡ text.now) }
    {
        Ok(Path {
            text: String::from_str(alloc, text)?,
        })
    }

    pub fn as_str(&self) -> &str
        ensures { result.now ≡ self.now }
    {
        self.text.as_str()
    }
}
