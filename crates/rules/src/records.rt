// An accepted table, and its records.
ghost use Rattle.std.specs.Prelude.{◌≡◌, ◌+◌, ◌*◌, ◌≤◌, ◌<◌, Some, IfOk, length};
ghost use Rattle.rules.specs.Action.{action_in};
ghost use Rattle.rules.specs.Field.{field_at, value_in, length_in};
ghost use Rattle.rules.specs.Table.{record_size, most_rules, record_at, rule_count, verdict, Accepted, SoundRule};
ghost use Rattle.rules.specs.Refusal.{checked_said};

use crate::{Action, Prefixes, RECORD_BYTES, RecordBytes, Refusal, action_of, check_table};
use bits::Prefix;

// A rule's record that fails no test of its own.
#[derive(Clone, Copy)]
pub struct Record<'a> {
    pub bytes: &'a RecordBytes,
    ghost sound: { SoundRule bytes.now },
}

// A table that is accepted. A place stays a number beside it: pairs, orders and the bits of a vector are made of places.
#[derive(Clone, Copy)]
pub struct Table<'a> {
    pub bytes: &'a [u8],
    ghost accepted: { Accepted bytes.now },
}

// The record at a place, as a part of the caller's table.
pub fn record_at(table: &[u8], place: usize) -> &RecordBytes
    requires { (place + 1) * record_size ≤ length table.now }
    ensures { result.now ≡ record_at table.now place }
{
    let start = place * RECORD_BYTES;
    table[start..start + RECORD_BYTES].as_array().unwrap()
}

impl<'a> Record<'a> {
    // Its prefix of field f.
    pub fn prefix(self, f: usize) -> Prefix
        requires { f < 5 }
        ensures value { result.value ≡ value_in self.entry.bytes.now (field_at f) }
        ensures len { result.len ≡ length_in self.entry.bytes.now (field_at f) }
        ensures width { result.width ≡ (field_at f).width }
    {
        let prefixes = Prefixes { bytes: self.bytes };
        prefixes.get(f)
    }

    // Its action, which is known.
    #[tactic(auto, using(crate::proofs::TableLaws::sound_known))]
    pub fn action(self) -> Action
        ensures { action_in self.entry.bytes.now ≡ Some result }
    {
        action_of(self.bytes).unwrap()
    }
}

impl<'a> TryFrom<&'a [u8]> for Table<'a> {
    type Error = Refusal;

    fn try_from(bytes: &'a [u8]) -> Result<Table<'a>, Refusal>
        ensures said { checked_said result ≡ verdict bytes.now }
        ensures same { IfOk result (λ table. table.bytes.now ≡ bytes.now) }
    {
        check_table(bytes)?;
        Ok(Table { bytes })
    }
}

impl<'a> Table<'a> {
    // The number of its rules.
    pub fn len(self) -> usize
        ensures { (result ≡ rule_count self.entry.bytes.now) × (result ≤ most_rules) }
    {
        self.bytes.len() / RECORD_BYTES
    }

    // The record at a place.
    pub fn record(self, place: usize) -> Record<'a>
        requires { place < rule_count self.bytes.now }
        ensures { result.bytes.now ≡ record_at self.entry.bytes.now place }
    {
        Record {
            bytes: record_at(self.bytes, place),
        }
    }
}
