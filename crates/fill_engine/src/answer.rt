//! What a program answers, and its bytes.
ghost use Rattle.std.specs.Prelude.{◌≡◌, ◌++◌, IfOk, OnOk};
ghost use Rattle.fill_engine.specs.Answer.{answer_bytes, answer_data, piece_bytes};

use fill_text::NoMemory;
use std::alloc::Global;

/// What a program answers: its status, all that it wrote to its output and to its errors, and the file that it saved.
#[derive(Drop)]
pub struct Answer {
    pub status: u8,
    pub out: Vec<u8>,
    pub err: Vec<u8>,
    pub saved: Vec<u8>,
}

impl Answer {
    /// The status, and then each text with the number of its bytes before it.
    pub fn bytes(&self, alloc: Global) -> Result<Vec<u8>, NoMemory>
        ensures { IfOk result (λ bytes. bytes.items ≡ answer_bytes (answer_data self.now)) }
    {
        let mut bytes = Vec::new(alloc);
        bytes.push(self.status)?;
        put_piece(&mut bytes, &self.out)?;
        put_piece(&mut bytes, &self.err)?;
        put_piece(&mut bytes, &self.saved)?;
        Ok(bytes)
    }
}

/// Adds a text with the number of its bytes before it.
fn put_piece(bytes: &mut Vec<u8>, piece: &[u8]) -> Result<(), NoMemory>
    ensures { OnOk result (bytes.new.items ≡ bytes.old.items ++ piece_bytes piece.now) }
{
    let count = piece.len() as u64;
    bytes.extend_from_slice(&count.to_le_bytes())?;
    bytes.extend_from_slice(piece)?;
    Ok(())
}
