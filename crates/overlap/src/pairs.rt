// The list of pairs: counted in one pass over the pairs of places, written in another.
ghost use Rattle.std.specs.Prelude.{◌≡◌, ◌++◌, ◌*◌, ◌≤◌, ◌<◌, length, drop};
ghost use Rattle.bits.specs.Writing.{Writes};
ghost use Rattle.rules.specs.Rule.{rule_of};
ghost use Rattle.rules.specs.Table.{rule_count, rules_of};
ghost use Rattle.overlap.specs.Pairs.{listed, pairs_of, entries};
ghost use Rattle.overlap.specs.Steps.{listed_with};

use crate::{covers, shares};
use rules::{Record, Table};

// "A listed pair shares a header and neither covers the other, whatever the actions." For each pair of rules one call, of `shares`; with
// more, or with none, a list takes longer (D-50).
#[inline(always)]
fn is_listed(a: Record<'_>, b: Record<'_>) -> bool
    ensures { result ≡ listed (rule_of a.entry.bytes.now) (rule_of b.entry.bytes.now) }
{
    shares(a, b) && !covers(a, b) && !covers(b, a)
}

// How many pairs of a place with a higher one are listed.
fn count_row(table: Table<'_>, lower: usize) -> usize
    requires { lower < rule_count table.bytes.now }
    ensures { result ≡ length (listed_with table.entry.bytes.now lower) }
{
    let rule = table.record(lower);
    (lower + 1..table.len())
        .filter(|higher| is_listed(rule, table.record(*higher)))
        .count()
}

// The number of listed pairs.
pub fn count_pairs(table: Table<'_>) -> usize
    ensures { result ≡ length (pairs_of (rules_of table.entry.bytes.now)) }
{
    (0..table.len()).map(|lower| count_row(table, lower)).sum()
}

// Writes the listed pairs of a place with the higher ones, "lower place first"; answers how many entries they take.
fn write_row(table: Table<'_>, lower: usize, list: &mut [u16]) -> usize
    requires place { lower < rule_count table.bytes.now }
    requires room { length (entries (listed_with table.bytes.now lower)) ≤ length list.old }
    ensures { Writes list.old 0 (entries (listed_with table.entry.bytes.now lower)) list.new result }
{
    let rule = table.record(lower);
    let mut at = 0;
    // By number: the two places are what is written. `at` is how much is, since of chunks lent to be written nothing is said afterwards.
    for higher in lower + 1..table.len() {
        if is_listed(rule, table.record(higher)) {
            list[at..at + 2].copy_from_slice(&[lower as u16, higher as u16]);
            at += 2;
        }
    }
    at
}

// Writes the listed pairs, "sorted by the lower and then the higher place"; later entries keep their values.
pub fn write_pairs(table: Table<'_>, list: &mut [u16])
    requires { 2 * length (pairs_of (rules_of table.bytes.now)) ≤ length list.old }
    ensures { list.new ≡ entries (pairs_of (rules_of table.entry.bytes.now)) ++ drop (2 * length (pairs_of (rules_of table.entry.bytes.now))) list.old }
{
    let mut at = 0;
    // By number, and with `at`, for the same reasons.
    for lower in 0..table.len() {
        at += write_row(table, lower, &mut list[at..]);
    }
}
