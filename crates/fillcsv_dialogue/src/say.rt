//! What is written to a person.
ghost use Rattle.fillcsv_dialogue.specs.Told.{Grew};

use fill_edge::{Sink, write_all};

/// Writes a text. A fault is passed over.
pub(crate) fn say<E: Sink>(err: &mut E, text: &[u8])
    ensures { Grew (E.written err.old) (E.written err.new) (E.faults err.old) (E.faults err.new) }
{
    let _ = write_all(err, text);
}
