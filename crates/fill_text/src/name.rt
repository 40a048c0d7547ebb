//! Names of files and tables.
ghost use Rattle.std.specs.Prelude.{◌≡◌, IfOk, IfErr, OnOk, encode_utf8_all, IsUtf8};
ghost use Rattle.std.specs.Str.{chars};
ghost use Rattle.fill_text.specs.Text.{Refuses};

use crate::TextError;
use std::alloc::Global;
use std::marker::Model;

/// The name of a file or a table, which contracts see as the list of its characters.
#[derive(Debug, Drop)]
pub struct Name {
    text: String,
}

impl Model for Name {
    ghost use Rattle.std.specs.Prelude.{ℕ, List, string_bytes};
    ghost use Rattle.std.specs.Str.{chars};

    ghost Value = { List ℕ };

    ghost view = { λ name. chars (string_bytes name.text) };
}

impl Name {
    /// The name that these bytes spell in UTF-8.
    pub fn from_utf8(alloc: Global, bytes: &[u8]) -> Result<Name, TextError>
        ensures ok { IfOk result (λ name. name ≡ chars bytes.now) }
        ensures spelled { OnOk result (IsUtf8 bytes.now) }
        ensures err { IfErr result (λ e. Refuses bytes.now e) }
    {
        match str::from_utf8(bytes) {
            Ok(text) => match String::from_str(alloc, text) {
                Ok(text) => Ok(Name { text }),
                Err(_) => Err(TextError::NoMemory),
            },
            Err(e) => Err(TextError::NotUtf8 {
                at: e.valid_up_to(),
            }),
        }
    }

    /// The name as the system takes it.
    pub fn as_str(&self) -> &str
        ensures spelled { result.now ≡ encode_utf8_all self.now }
        ensures same { chars result.now ≡ self.now }
    {
        self.text.as_str()
    }
}
