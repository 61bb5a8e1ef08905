// Two rules by their records: whether they share a header, whether one covers the other, whether their actions are the
// same, and the lowest header that they share.
ghost use Rattle.std.specs.Prelude.{◌≡◌, ◌^◌, ◌<◌, max};
ghost use Rattle.rules.specs.Field.{field_at, value_in};
ghost use Rattle.rules.specs.Action.{action_in, same_action};
ghost use Rattle.rules.specs.Refusal.{values};
ghost use Rattle.rules.specs.Overlap.{span_share, share, span_covers, covers, lowest_shared};
ghost use Rattle.rules.specs.Rule.{rule_of, span_in};

use rules::{FIELDS, Header, Record, RecordBytes, value_of};

// In field f the prefix that is no longer leads the other's value.
fn shares_in(a: Record<'_>, b: Record<'_>, f: usize) -> bool
    requires { f < 5 }
    ensures { result ≡ span_share (span_in (rule_of a.entry.bytes.now) f) (span_in (rule_of b.entry.bytes.now) f) }
{
    let first = a.prefix(f);
    let second = b.prefix(f);
    if first.len <= second.len {
        first.leads(second)
    } else {
        second.leads(first)
    }
}

// In field f the first prefix is no longer than the second, and leads its value.
fn covers_in(a: Record<'_>, b: Record<'_>, f: usize) -> bool
    requires { f < 5 }
    ensures { result ≡ span_covers (span_in (rule_of a.entry.bytes.now) f) (span_in (rule_of b.entry.bytes.now) f) }
{
    let first = a.prefix(f);
    let second = b.prefix(f);
    first.len <= second.len && first.leads(second)
}

// Two tests of a field, and not one over a relation, which was slower in the pair list; and two records, since covering is asked both ways.
// "Two rules share a header when, in each field, one prefix is a leading part of the other."
#[inline(never)]
pub fn shares(a: Record<'_>, b: Record<'_>) -> bool
    ensures { result ≡ share (rule_of a.entry.bytes.now) (rule_of b.entry.bytes.now) }
{
    (0..FIELDS).all(|f| shares_in(a, b, f))
}

// "One covers another when each of its prefixes is a leading part of the other's."
#[inline(always)]
pub fn covers(a: Record<'_>, b: Record<'_>) -> bool
    ensures { result ≡ covers (rule_of a.entry.bytes.now) (rule_of b.entry.bytes.now) }
{
    (0..FIELDS).all(|f| covers_in(a, b, f))
}

// Both hold, or both deliver to one feed.
pub fn same_action(a: Record<'_>, b: Record<'_>) -> bool
    ensures { result ≡ same_action (action_in a.entry.bytes.now) (action_in b.entry.bytes.now) }
{
    a.action() == b.action()
}

// The larger value of field f: of two prefixes that share a header, the longer one's.
fn larger_value(a: &RecordBytes, b: &RecordBytes, f: usize) -> u32
    requires { f < 5 }
    ensures { (result ≡ max (value_in a.now (field_at f)) (value_in b.now (field_at f))) × (result < 2 ^ (field_at f).width) }
{
    value_of(a, f).max(value_of(b, f))
}

// "their lowest shared header: in each field, the value of the longer prefix". Its five values are written out, as where a header is read: a
// function from a field's number to its value would have to promise each width.
pub fn lowest_shared(a: &RecordBytes, b: &RecordBytes) -> Header
    ensures { values result ≡ lowest_shared (rule_of a.now) (rule_of b.now) }
{
    Header {
        source: larger_value(a, b, 0),
        destination: larger_value(a, b, 1),
        sport: larger_value(a, b, 2) as u16,
        dport: larger_value(a, b, 3) as u16,
        protocol: larger_value(a, b, 4) as u8,
    }
}
