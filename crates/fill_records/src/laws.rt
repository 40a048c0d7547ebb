//! What is true of the records of every file.
ghost use Rattle.std.specs.Prelude.{◌+◌, ◌*◌, ◌≤◌, length};
ghost use Rattle.fill_records.specs.Records.{records_of};

/// A record but the last takes two bytes at least: one of a field, a quote or a comma, and the end of its line. So
/// the records of a file that stands in memory can be counted in its length's type. It does nothing.
pub fn records_are_few(bytes: &[u8])
    ensures { 2 * length (records_of bytes.now) ≤ length bytes.now + 1 }
{
    let _bytes = bytes;
}
