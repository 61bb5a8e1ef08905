// The judgement of a move: the first pair of rules that changes order, shares a header and differs in action.
ghost use Rattle.std.specs.Prelude.{◌≡◌, List, ℕ, ◌+◌, ◌-◌, ◌≤◌, ◌<◌, length};
ghost use Rattle.rules.specs.Rule.{rule_of};
ghost use Rattle.rules.specs.Table.{rule_count, rules_of};
ghost use Rattle.overlap.specs.Pairs.{row};
ghost use Rattle.overlap.specs.Judge.{clashes, crossing};
ghost use Rattle.overlap.specs.Steps.{Inverts};
ghost use Rattle.overlap.specs.Obstacle.{overtaken_by, pair_told, found_told, first_told, crossing_told, obstacle_told};

use crate::{lowest_shared, same_action, shares};
use rules::{Crossing, MOST_RULES, Record, Table};

// Whether two rules share a header and differ in action.
fn clash(a: Record<'_>, b: Record<'_>) -> bool
    ensures { result ≡ clashes (rule_of a.entry.bytes.now) (rule_of b.entry.bytes.now) }
{
    shares(a, b) && !same_action(a, b)
}

// Whether two rules change order and clash; those that keep their order are not compared. Table and places stay two parameters: a struct
// of both would only be taken apart again.
fn is_overtaken(table: Table<'_>, places: &[u16], lower: usize, higher: usize) -> bool
    requires { (rule_count table.bytes.now ≤ length places.now) × (lower < rule_count table.bytes.now) × (higher < rule_count table.bytes.now) }
    ensures { result ≡ overtaken_by (rules_of table.entry.bytes.now) places.now lower higher }
{
    places[higher] < places[lower] && clash(table.record(lower), table.record(higher))
}

// The pair of two places with its lowest shared header, as refusal 13 names it.
fn crossing_at(table: Table<'_>, lower: usize, higher: usize) -> Crossing
    requires { (lower < rule_count table.bytes.now) × (higher < rule_count table.bytes.now) }
    ensures { crossing_told result ≡ pair_told (rules_of table.entry.bytes.now) lower higher }
{
    let header = lowest_shared(table.record(lower).bytes, table.record(higher).bytes);
    Crossing {
        lower,
        higher,
        header,
    }
}

// The first pair of a place with a higher one that stands in the way.
fn first_in_row(table: Table<'_>, places: &[u16], lower: usize) -> Option<Crossing>
    requires { (rule_count table.bytes.now ≤ length places.now) × (lower < rule_count table.bytes.now) }
    ensures { obstacle_told result ≡ first_told (rules_of table.entry.bytes.now) places.now (row lower (lower + 1) (rule_count table.entry.bytes.now - (lower + 1))) }
{
    let higher = (lower + 1..table.len()).find(|at| is_overtaken(table, places, lower, *at))?;
    Some(crossing_at(table, lower, higher))
}

// "the first pair by old places (lower, then higher) that changes order, shares a header and differs in action",
// for the order that was checked.
pub fn first_crossing(table: Table<'_>, places: &[u16; MOST_RULES]) -> Option<Crossing>
    ensures { (order : List ℕ) → Inverts (rule_count table.entry.bytes.now) order places.now
        → obstacle_told result ≡ found_told (rules_of table.entry.bytes.now) (crossing (rules_of table.entry.bytes.now) order) }
{
    (0..table.len()).find_map(|lower| first_in_row(table, places, lower))
}
