// Runs the build on no rule, on the six rules and on 256 rules, and prints what it answers and what
// it leaves in an area that was full of ones.
#![tactic(auto)]

use samples::{AREA_WORDS, Pattern, SIX_BYTES, TABLE_BYTES};
use std::{fmt, io};
use trial::Refused;

// A line of output has as many words as a record of an index.
const RECORD_WORDS: usize = 11;

fn main(rt: HostRuntime) -> io::Result<()> {
    six_rules(&rt)?;
    all_rules(&rt)
}

// No rule and the six rules, a word short and exact; then the six rules with R3 of a kind that is unknown.
fn six_rules(rt: &impl Print) -> io::Result<()> {
    let mut table = [0; SIX_BYTES];
    let mut area = [u32::MAX; 209];
    samples::six_rules(&mut table);
    for (name, table, words) in [
        ("no rule, 54 words", &table[..0], 54),
        ("no rule, 55 words", &table[..0], 55),
        ("six rules, 197 words", &table[..], 197),
        ("six rules, 198 words", &table[..], 198),
    ] {
        build(rt, name, table, &mut area, words)?;
        print_words(rt, &area)?;
    }
    table[90] = 2;
    build(rt, "six rules, R3 of kind 2", &table, &mut area, 209)?;
    print_words(rt, &area)
}

fn all_rules(rt: &impl Print) -> io::Result<()> {
    let mut table = [0; TABLE_BYTES];
    let mut area = samples::large_area();
    samples::fill(&mut table, Pattern::Exact);
    for (name, words) in [
        ("256 rules of full length, 202861 words", 202861),
        ("256 rules of full length, 202862 words", 202862),
    ] {
        build(rt, name, &table, &mut area, words)?;
        print_corners(rt, &area)?;
    }
    Ok(())
}

// The first record, the last one of full length, and the word beyond.
fn print_corners(rt: &impl Print, area: &[u32; AREA_WORDS]) -> io::Result<()> {
    for part in [&area[..11], &area[202851..202862], &area[202862..202863]] {
        print_words(rt, part)?;
    }
    Ok(())
}

// Builds in the first words of the area.
fn build(
    rt: &impl Print,
    name: &str,
    table: &[u8],
    area: &mut [u32],
    words: usize,
) -> io::Result<()> {
    let words = words.min(area.len());
    match desk::build(table, &mut area[..words]) {
        Ok(taken) => println!(rt; "{name}: done, {taken} words"),
        Err(refusal) => println!(rt; "{name}: {}", Refused(refusal)),
    }
}

// All words, a record on each line.
fn print_words(rt: &impl Print, area: &[u32]) -> io::Result<()> {
    for record in area.chunks(RECORD_WORDS) {
        println!(rt; "{}", Line(record))?;
    }
    Ok(())
}

// Words, each before a space.
#[derive(Clone, Copy)]
struct Line<'a>(&'a [u32]);

impl fmt::Display for Line<'_> {
    fn fmt<W: fmt::Write>(&self, f: &mut fmt::Formatter<W>) -> fmt::Result {
        for word in self.0 {
            write!(f, "{word} ")?;
        }
        Ok(())
    }
}
