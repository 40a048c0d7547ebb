//! Files that are refused.
ghost use Rattle.std.specs.Prelude.{◌≡◌, IfOk};
ghost use Rattle.fill_open.specs.Refusal.{refusal};

use crate::Fault;
use std::alloc::{AllocError, Global};
use std::marker::Model;

/// A file that is refused, by its name, and what is wrong with it.
#[derive(Debug, Drop)]
pub struct Refusal {
    file: String,
    fault: Fault,
}

impl Model for Refusal {
    ghost use Rattle.std.specs.Prelude.{string_bytes};
    ghost use Rattle.fill_open.specs.Refusal.{RefusalData, refusal};

    ghost Value = { RefusalData };

    ghost view = { λ r. refusal (string_bytes r.file) r.fault };
}

impl Refusal {
    /// The refusal of the file of a name.
    pub(crate) fn of(alloc: Global, file: &str, fault: Fault) -> Result<Refusal, AllocError>
        ensures { IfOk result (λ r. r ≡ refusal file.now fault) }
    {
        let file = String::from_str(alloc, file)?;
        Ok(Refusal { file, fault })
    }

    /// The name of the file.
    pub fn file(&self) -> &str
        ensures { result.now ≡ self.now.file }
    {
        self.file.as_str()
    }

    /// What is wrong with it.
    pub fn fault(&self) -> Fault
        ensures { result ≡ self.now.fault }
    {
        self.fault
    }
}
