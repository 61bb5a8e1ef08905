// Writing the index in three passes over the lent words: grow the records rule by rule, hand each
// record's vector on to its children, then aggregate.
ghost use Rattle.std.specs.Prelude.{◌≡◌, ◌++◌, ◌*◌, ◌≤◌, ◌<◌, length, drop};
ghost use Rattle.area.specs.Grow.{mk, Roomy};
ghost use Rattle.area.specs.Growing.{standing, HasRoom};
ghost use Rattle.rules.specs.Table.{rules_of, rule_count};
ghost use Rattle.area.specs.Shape.{desk_shape, record_words};
ghost use Rattle.index.specs.Image.{image};
ghost use Rattle.index.specs.Need.{records, need};
ghost use Rattle.index.specs.Steps.{rule_in, rules_in, cleared, all_in};

use area::Growth;
use rules::{FIELDS, Record, Table};

// Rule i's five prefixes go in.
fn grow_rule(growth: &mut Growth<'_>, rule: Record<'_>, i: usize)
    requires in_table { i < 256 }
    requires room { HasRoom growth.old (rule_in rule.bytes.now i (standing growth.old 0)) }
    ensures same_words { growth.new.words.ghost_name ≡ growth.old.words.ghost_name }
    ensures grown { standing growth.new 0 ≡ rule_in rule.entry.bytes.now i (standing growth.old 0) }
{
    // A field is named by its number, which its root has too.
    for f in 0..FIELDS {
        growth.insert(f, rule.prefix(f), i);
    }
}

// All rules go in, one after another.
fn grow_rules(growth: &mut Growth<'_>, table: Table<'_>)
    requires room { HasRoom growth.old (rules_in table.bytes.now (rule_count table.bytes.now) (standing growth.old 0)) }
    ensures same_words { growth.new.words.ghost_name ≡ growth.old.words.ghost_name }
    ensures grown { standing growth.new 0 ≡ rules_in table.entry.bytes.now (rule_count table.entry.bytes.now) (standing growth.old 0) }
{
    // A rule is named by its place, which its bit in a vector has too.
    for i in 0..table.len() {
        grow_rule(growth, table.record(i), i);
    }
}

// An area with the five roots alone, cleared.
fn rooted(area: &mut [u32]) -> Growth<'_>
    requires { 5 * record_words ≤ length area.old }
    ensures same_words { result.words.ghost_name ≡ area.entry.ghost_name }
    ensures rooted { standing result 0 ≡ cleared area.old }
{
    area::clear(area, 0, FIELDS * area::RECORD_WORDS);
    Growth {
        words: area,
        next: FIELDS,
    }
}

// All rules go into an area whose five roots are cleared first. Answers the number of records.
fn grow_all(table: Table<'_>, area: &mut [u32]) -> usize
    requires { Roomy (all_in table.bytes.now area.old) (length area.old) }
    ensures { mk area.new 0 result ≡ all_in table.entry.bytes.now area.old }
{
    let mut growth = rooted(area);
    grow_rules(&mut growth, table);
    growth.next
}

// Writes the index of an accepted table; the area's further words keep their values.
pub fn write(table: Table<'_>, area: &mut [u32])
    requires roomy { (records 5 (rules_of table.bytes.now) ≤ 40965) × (need desk_shape (rules_of table.bytes.now) ≤ length area.old) }
    ensures { area.new ≡ image desk_shape (rules_of table.entry.bytes.now) ++ drop (need desk_shape (rules_of table.entry.bytes.now)) area.old }
{
    let count = grow_all(table, area);
    area::hand_on(area, count);
    area::aggregate_all(area, count);
}
