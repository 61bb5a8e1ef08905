// A rule's record, written into a table.
ghost use Rattle.std.specs.Prelude.{◌≡◌};
ghost use Rattle.samples.specs.Sample.{delivering, written};

use rules::{RECORD_BYTES, RecordBytes};

// A record at its place; a table without that place stays as it is.
pub(crate) fn write_record(table: &mut [u8], place: usize, rule: RecordBytes)
    ensures { table.new ≡ written table.old place rule }
{
    // By place: of chunks that are lent to be written nothing is said afterwards.
    if place < table.len() / RECORD_BYTES {
        let start = place * RECORD_BYTES;
        table[start..start + RECORD_BYTES].copy_from_slice(&rule);
    }
}

// A rule that delivers, of the first byte and the length of each address. Five parameters: the numbers of a rule that a reader sees
// in a table of the programs.
pub(crate) fn delivering_rule(
    source: u8,
    slen: u8,
    destination: u8,
    dlen: u8,
    feed: u8,
) -> RecordBytes
    ensures { result ≡ delivering source slen destination dlen feed }
{
    let mut rule = [0; RECORD_BYTES];
    rule[0] = source;
    rule[4] = destination;
    rule[13] = slen;
    rule[14] = dlen;
    rule[18] = 1;
    rule[19] = feed;
    rule
}
