// Tables of 256 rules, each rule made from its place.
use crate::records::delivering_rule;
use rules::{MOST_RULES, RECORD_BYTES, RecordBytes};

// The bytes of a table of 256 rules.
pub const TABLE_BYTES: usize = MOST_RULES * RECORD_BYTES;

// An enum, not a parameter `impl Fn(u8) -> RecordBytes`: that would have to ask of the callers of `fill`, which asks nothing, that it may
// be called.
#[derive(Clone, Copy)]
pub enum Pattern {
    // Addresses to 24 and 16 bits, an exact destination port, one of two protocols.
    Traffic,
    // By turns wide in the destination and wide in the source, so that every other pair is listed.
    Crossing,
    // Full length in every field, no two with the same first byte in an address or a port, by turns of protocol 6 and 17, which have
    // ports: 18,442 index records.
    Exact,
    // Everything to feed 0.
    Equal,
    // Everything, to a feed of its own.
    OwnFeed,
}

impl Pattern {
    fn rule_at(self, place: u8) -> RecordBytes {
        match self {
            Pattern::Traffic => traffic(place),
            Pattern::Crossing => crossing(place),
            Pattern::Exact => exact(place),
            Pattern::Equal => delivering_rule(0, 0, 0, 0, 0),
            Pattern::OwnFeed => delivering_rule(0, 0, 0, 0, place),
        }
    }
}

// As many of the rules as the table has room for.
pub fn fill(table: &mut [u8], pattern: Pattern) {
    let (records, _) = table.as_chunks_mut();
    for (place, record) in (0..=u8::MAX).zip(records) {
        *record = pattern.rule_at(place);
    }
}

// A byte of its own for each place: the factors are odd.
fn spread(place: u8, factor: u8, first: u8) -> u8 {
    place.wrapping_mul(factor).wrapping_add(first)
}

fn traffic(place: u8) -> RecordBytes {
    let mut rule = delivering_rule(spread(place, 167, 13), 24, spread(place, 89, 3), 16, 0);
    rule[1] = spread(place, 59, 101);
    rule[2] = spread(place, 211, 7);
    rule[5] = spread(place, 151, 77);
    rule[10] = place / 16;
    rule[11] = spread(place, 73, 80);
    rule[12] = port_protocol(place);
    rule[16] = 16;
    rule[17] = 8;
    rule
}

fn crossing(place: u8) -> RecordBytes {
    let first = spread(place, 167, 13);
    let second = spread(place, 59, 101);
    if place.is_multiple_of(2) {
        let mut rule = delivering_rule(first, 16, 0, 0, 0);
        rule[1] = second;
        rule
    } else {
        let mut rule = delivering_rule(0, 0, first, 16, 0);
        rule[5] = second;
        rule
    }
}

fn exact(place: u8) -> RecordBytes {
    let mut rule = delivering_rule(place, 32, place, 32, place);
    rule[8] = place;
    rule[10] = place;
    rule[12] = port_protocol(place);
    rule[15] = 16;
    rule[16] = 16;
    rule[17] = 8;
    rule
}

// 6 and 17 by turns.
fn port_protocol(place: u8) -> u8 {
    if place.is_multiple_of(2) { 6 } else { 17 }
}
