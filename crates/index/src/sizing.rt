// The records that a table's index needs, counted without touching the area: each prefix's length
// less the longest leading part that it has in common with an earlier rule's.
ghost use Rattle.std.specs.Prelude.{◌≡◌, ◌-◌, ◌≤◌, ◌<◌, length, take};
ghost use Rattle.rules.specs.Match.{rule_at};
ghost use Rattle.rules.specs.Table.{record_at, rules_of, rule_count};
ghost use Rattle.index.specs.Key.{at};
ghost use Rattle.index.specs.Keys.{inserts, rule_inserts};
ghost use Rattle.index.specs.Need.{longest, fresh, records, need};
ghost use Rattle.area.specs.Shape.{desk_shape};
ghost use Rattle.index.specs.Steps.{path_of};

use rules::{FIELDS, Table};

// The longest leading part that rule i's prefix of field f has in common with an earlier rule's.
fn longest_common(table: Table<'_>, i: usize, f: usize) -> usize
    requires { (f < 5) × (i < rule_count table.bytes.now) }
    ensures { result ≡ longest (at f (path_of (record_at table.entry.bytes.now i) f)) (inserts 5 (take i (rules_of table.entry.bytes.now))) }
{
    let prefix = table.record(i).prefix(f);
    // Folded from 0: `max` would take the first turn apart, and a build's longest loop gets slower.
    (0..i)
        .map(|e| prefix.common(table.record(e).prefix(f)))
        .fold(0, usize::max)
}

// The records that rule i's prefix of field f adds.
fn field_need(table: Table<'_>, i: usize, f: usize) -> usize
    requires { (f < 5) × (i < rule_count table.bytes.now) }
    ensures { result ≡ length (path_of (record_at table.entry.bytes.now i) f) - longest (at f (path_of (record_at table.entry.bytes.now i) f)) (inserts 5 (take i (rules_of table.entry.bytes.now))) }
{
    table.record(i).prefix(f).len - longest_common(table, i, f)
}

// The records that rule i adds.
fn rule_need(table: Table<'_>, i: usize) -> usize
    requires { i < rule_count table.bytes.now }
    ensures { (result ≡ fresh (inserts 5 (take i (rules_of table.entry.bytes.now))) (rule_inserts 0 5 (rule_at (rules_of table.entry.bytes.now) i))) × (result ≤ 160) }
{
    (0..FIELDS).map(|f| field_need(table, i, f)).sum()
}

// The records that the index of an accepted table needs.
fn records_needed(table: Table<'_>) -> usize
    ensures { (result ≡ records 5 (rules_of table.entry.bytes.now)) × (result ≤ 40965) }
{
    FIELDS + (0..table.len()).map(|i| rule_need(table, i)).sum::<usize>()
}

// The words that the index of an accepted table needs.
#[tactic(auto, unfolding(crate::specs::Need::need))]
pub fn words_needed(table: Table<'_>) -> usize
    ensures { (result ≡ need desk_shape (rules_of table.entry.bytes.now)) × (records 5 (rules_of table.entry.bytes.now) ≤ 40965) }
{
    records_needed(table) * area::RECORD_WORDS
}
