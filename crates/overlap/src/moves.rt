// The moved table, written to a lent output.
ghost use Rattle.std.specs.Prelude.{◌≡◌, true, ◌++◌, ◌≤◌, length, drop};
ghost use Rattle.rules.specs.Table.{record_size, rule_count};
ghost use Rattle.overlap.specs.Order.{is_order, moved_table};

use rules::{RECORD_BYTES, RecordBytes, Table};

// Writes a record at the start of what it is lent.
fn put_record(output: &mut [u8], rule: &RecordBytes)
    requires { record_size ≤ length output.old }
    ensures { output.new ≡ rule.now ++ drop record_size output.old }
{
    output[..RECORD_BYTES].copy_from_slice(rule);
}

// "each record goes out through the part of the output that starts at its new place; bytes beyond the table stay".
// By place: of chunks that are lent to be written nothing is said afterwards.
pub fn write_moved(table: Table<'_>, order: &[u16], output: &mut [u8])
    requires { (is_order (rule_count table.bytes.now) order.now ≡ true) × (length table.bytes.now ≤ length output.old) }
    ensures { output.new ≡ moved_table table.entry.bytes.now order.now ++ drop (length table.entry.bytes.now) output.old }
{
    for (place, old) in order.iter().enumerate() {
        let old = usize::from(*old);
        let at = place * RECORD_BYTES;
        put_record(&mut output[at..], table.record(old).bytes);
    }
}
