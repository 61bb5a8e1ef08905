// Whether a rule, and a whole table, is accepted.
ghost use Rattle.std.specs.Prelude.{◌≡◌};
ghost use Rattle.rules.specs.Action.{decoded, action_in};
ghost use Rattle.rules.specs.Refusal.{checked_said};
ghost use Rattle.rules.specs.Table.{rule_said, verdict};

use crate::{Action, MOST_RULES, Prefixes, RECORD_BYTES, RecordBytes, Refusal};

// An action from its two bytes. No kind but 1 delivers.
#[tactic(auto, unfolding(crate::specs::Action::decoded))]
pub fn decode(kind: u8, feed: u8) -> Option<Action>
    ensures { result ≡ decoded kind feed }
{
    match kind {
        0 => { if feed == 0 { Some(Action::Hold) } else { None } }
        1 => Some(Action::Deliver(feed)),
        2..=255 => None,
    }
}

// The action of a record.
#[tactic(auto, unfolding(crate::specs::Action::action_in))]
pub fn action_of(bytes: &RecordBytes) -> Option<Action>
    ensures { result ≡ action_in bytes.now }
{
    decode(bytes[18], bytes[19])
}

// The tests of one rule, in their order.
pub fn check_rule(bytes: &RecordBytes, place: usize) -> Result<(), Refusal>
    ensures { checked_said result ≡ rule_said place bytes.now }
{
    let Some(prefixes) = Prefixes::of(bytes) else {
        return Err(Refusal::LongPrefix(place));
    };
    if prefixes.has_stray_bit() {
        return Err(Refusal::StrayBit(place));
    }
    let Some(_) = action_of(bytes) else {
        return Err(Refusal::UnknownAction(place));
    };
    if bits::number_at(bytes, 20, 4) != 0 {
        return Err(Refusal::SpareBytes(place));
    }
    if prefixes.has_stray_port() {
        return Err(Refusal::StrayPort(place));
    }
    Ok(())
}

// The verdict on any bytes: 1, 2, then the rules, of which the lowest place with a fault is named.
pub fn check_table(table: &[u8]) -> Result<(), Refusal>
    ensures { checked_said result ≡ verdict table.now }
{
    let (records, rest) = table.as_chunks::<RECORD_BYTES>();
    if !rest.is_empty() {
        return Err(Refusal::RaggedTable);
    }
    if MOST_RULES < records.len() {
        return Err(Refusal::TooManyRules);
    }
    for (place, record) in records.iter().enumerate() {
        check_rule(record, place)?;
    }
    Ok(())
}
