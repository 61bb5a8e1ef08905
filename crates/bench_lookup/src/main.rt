// How long 1,000,000 lookups take over the index of 256 rules. The number of matches goes to standard
// output, the microseconds to standard error.
#![tactic(auto)]

use lookup::Outcome;
use rules::{HEADER_BYTES, MOST_RULES, RecordBytes};
use samples::{Pattern, TABLE_BYTES};
use std::io;

fn main(rt: HostRuntime) -> io::Result<()> {
    let mut table = [0; TABLE_BYTES];
    samples::fill(&mut table, Pattern::Traffic);
    let mut area = samples::large_area();
    if let Ok(words) = desk::build(&table, &mut area) {
        println!(rt; "256 rules, words: {words}")?;
    }
    let mut matches = 0;
    let time = trial::timed(&rt, || matches = count_matches(&table, &area))?;
    eprintln!(rt; "microseconds for 1000000 lookups: {time}")?;
    println!(rt; "1000000 lookups, matches: {matches}")
}

fn count_matches(table: &[u8; TABLE_BYTES], area: &[u32]) -> usize {
    let mut header = [0; HEADER_BYTES];
    (0..1000000)
        .filter(|turn| {
            change(table, &mut header, *turn);
            let answer = desk::lookup(table, area, &header);
            answer.is_ok_and(|found| matches!(found.outcome, Outcome::Match(..)))
        })
        .count()
}

// The next header: in even turns that of some rule; in odd turns the last one, with other bytes in both addresses. Two bytes that the rules
// leave open change in every turn.
fn change(table: &[u8; TABLE_BYTES], header: &mut [u8; HEADER_BYTES], turn: usize) {
    let i = turn % 131072;
    if i.is_multiple_of(2) {
        copy_rule(rules::record_at(table, i / 2 % MOST_RULES), header);
    } else {
        header[1] = low_byte(i / 3);
        header[4] = low_byte(i / 5);
    }
    header[3] = low_byte(i / 7);
    header[9] = low_byte(i);
}

// The bytes that the rule does not leave open, one by one: what is written in wider pieces is slower to read, and a lookup is what is
// measured.
fn copy_rule(rule: &RecordBytes, header: &mut [u8; HEADER_BYTES]) {
    for at in [0, 1, 2, 4, 5, 10, 11, 12] {
        if let Some(byte) = header.get_mut(at) {
            *byte = rule[at];
        }
    }
}

fn low_byte(value: usize) -> u8 {
    (value & 0xff) as u8
}
