// Looks up headers over the index of the six rules: whole, cut short and damaged, with wrong headers
// and tables, and with a table that was changed after the build. Prints what is answered.
#![tactic(auto)]

use lookup::{Answer, Outcome};
use rules::{Action, HEADER_BYTES, RECORD_BYTES, Refusal};
use samples::SIX_BYTES;
use std::{fmt, io};
use trial::Refused;

// 258 rules: the six, then zeros.
const TABLE_BYTES: usize = 258 * RECORD_BYTES;

// What the index of the six rules takes.
const INDEX_WORDS: usize = 198;

// Room for a record more.
const AREA_WORDS: usize = 209;

// 001's packet K5.
const K5: [u8; HEADER_BYTES] = [0, 0, 0, 1, 128, 0, 0, 1, 0, 0, 0, 0, 0];

fn main(rt: HostRuntime) -> io::Result<()> {
    let mut table = [0; TABLE_BYTES];
    let mut area = [0; AREA_WORDS];
    samples::six_rules(&mut table);
    match desk::build(&table[..SIX_BYTES], &mut area) {
        Ok(words) => println!(rt; "built, {words} words")?,
        Err(_) => println!(rt; "not built")?,
    }
    let six = &table[..SIX_BYTES];
    let index = &area[..INDEX_WORDS];
    headers(&rt, six, index)?;
    lengths(&rt, &table, &area)?;
    damaged(&rt, six, &area)?;
    changed(&rt, index)?;
    lone_roots(&rt, six)?;
    print_numbers(&rt, "index of 0 to 60 words", six, &area[..61])?;
    print_numbers(&rt, "index of 0 to 198 words", six, &area[..199])
}

// K5, K6 and K7, a header of ones, and K5 without its last byte and with one more.
fn headers(rt: &impl Print, table: &[u8], area: &[u32]) -> io::Result<()> {
    for (name, header) in [
        ("K5", &K5[..]),
        ("K6", &[224, 0, 0, 1, 240, 0, 0, 1, 0, 0, 0, 0, 0][..]),
        ("K7", &[64, 0, 0, 1, 192, 0, 0, 1, 0, 0, 0, 0, 0][..]),
        ("all ones", &[255; HEADER_BYTES][..]),
        ("12 bytes", &K5[..12]),
        (
            "14 bytes",
            &[0, 0, 0, 1, 128, 0, 0, 1, 0, 0, 0, 0, 0, 0][..],
        ),
    ] {
        look(rt, name, table, area, header)?;
    }
    Ok(())
}

// Tables and areas of other lengths; the header's length is looked at before anything else.
fn lengths(rt: &impl Print, table: &[u8; TABLE_BYTES], area: &[u32; AREA_WORDS]) -> io::Result<()> {
    let six = &table[..SIX_BYTES];
    let ragged = &table[..145];
    let index = &area[..INDEX_WORDS];
    for (name, table, area, header) in [
        (
            "12 bytes, table of 145 bytes",
            ragged,
            &area[..54],
            &K5[..12],
        ),
        ("table of 145 bytes", ragged, index, &K5[..]),
        ("257 rules", &table[..6168], index, &K5[..]),
        ("257 rules and a byte", &table[..6169], index, &K5[..]),
        ("257 rules, 54 words", &table[..6168], &area[..54], &K5[..]),
        ("no rule", &table[..0], index, &K5[..]),
        ("54 words", six, &area[..54], &K5[..]),
        ("55 words", six, &area[..55], &K5[..]),
        ("209 words", six, &area[..], &K5[..]),
    ] {
        look(rt, name, table, area, header)?;
    }
    Ok(())
}

// K5 over an area with another word at a place.
fn damaged(rt: &impl Print, table: &[u8], area: &[u32; AREA_WORDS]) -> io::Result<()> {
    for (name, at, word) in [
        // Children of record 0 that no sound area has: another field's root, or past the 18 whole records.
        ("child 4", 0, 4),
        ("child 1", 0, 1),
        ("child 18", 0, 18),
        ("child 4294967295", 0, u32::MAX),
        // Children that may be followed, wherever they lead: the walk ends with the header's bits.
        ("child 5", 0, 5),
        ("child 17", 0, 17),
        ("no child", 0, 0),
        ("destination's child 5", 12, 5),
        ("record 5 its own child", 55, 5),
        ("child not on the way", 1, 4),
        // Other aggregates in the roots. K5's walks end there in the ports and the protocol alone.
        ("aggregate of record 0", 2, 0),
        ("aggregate of record 1", 13, 0),
        ("aggregate of record 2", 24, 0),
        ("aggregate of record 3", 35, 2),
        ("aggregate of record 4", 46, 254),
        ("aggregate all ones", 46, u32::MAX),
    ] {
        look(rt, name, table, &index_with(area, at, word), &K5)?;
    }
    Ok(())
}

// The index with another word at a place.
fn index_with(area: &[u32; AREA_WORDS], at: usize, word: u32) -> [u32; INDEX_WORDS] {
    let mut index = [0; INDEX_WORDS];
    index.copy_from_slice(&area[..INDEX_WORDS]);
    if let Some(changed) = index.get_mut(at) {
        *changed = word;
    }
    index
}

// R0 changed after the build: its action is read at the match, its other bytes are not read.
fn changed(rt: &impl Print, area: &[u32]) -> io::Result<()> {
    let mut table = [0; SIX_BYTES];
    samples::six_rules(&mut table);
    for (name, length, kind, feed) in [
        ("kind 2", 1, 2, 10),
        ("kind 255, feed 0", 1, 255, 0),
        ("hold with a feed", 1, 0, 10),
        ("hold", 1, 0, 0),
        ("feed 255", 1, 1, 255),
        ("length 33", 33, 1, 10),
    ] {
        table[13] = length;
        table[18] = kind;
        table[19] = feed;
        look(rt, name, &table, area, &K5)?;
    }
    Ok(())
}

// Areas of five roots alone, without children: every walk ends where it starts.
fn lone_roots(rt: &impl Print, table: &[u8]) -> io::Result<()> {
    for (name, aggregate, word) in [
        ("roots with place 31", 1, 1 << 31),
        ("roots with place 6", 1, 1 << 6),
        ("roots with place 5", 1, 1 << 5),
        ("roots with no place", 1, 0),
        ("roots with 8 false blocks", 255, 0),
        ("roots with 9 blocks", 511, 0),
    ] {
        look(rt, name, table, &equal_roots::<55>(aggregate, word), &K5)?;
    }
    print_numbers(
        rt,
        "roots of 0 to 60 words",
        table,
        &equal_roots::<61>(511, 0),
    )
}

// Records of one aggregate and one first vector word.
fn equal_roots<const WORDS: usize>(aggregate: u32, word: u32) -> [u32; WORDS] {
    let mut area = [0; WORDS];
    let (roots, _) = area.as_chunks_mut::<11>();
    for root in roots {
        root[2] = aggregate;
        root[3] = word;
    }
    area
}

// The refusals' numbers for K5 over every shorter area: 0 where it is answered.
fn print_numbers(rt: &impl Print, name: &str, table: &[u8], area: &[u32]) -> io::Result<()> {
    print!(rt; "{name}:")?;
    // A length of the area in each turn, and no index.
    for words in 0..area.len() {
        let answer = desk::lookup(table, &area[..words], &K5);
        print!(rt; " {}", answer.map_or_else(Refusal::number, |_| 0))?;
    }
    println!(rt; "")
}

fn look(rt: &impl Print, name: &str, table: &[u8], area: &[u32], header: &[u8]) -> io::Result<()> {
    println!(rt; "{name}: {}", Looked(desk::lookup(table, area, header)))
}

#[derive(Drop)]
struct Looked(Result<Answer, Refusal>);

impl fmt::Display for Looked {
    fn fmt<W: fmt::Write>(&self, f: &mut fmt::Formatter<W>) -> fmt::Result {
        match self.0 {
            Ok(Answer { falses, outcome }) => {
                write!(f, "{}, {falses} false blocks", Found(outcome))
            }
            Err(refusal) => write!(f, "{}", Refused(refusal)),
        }
    }
}

#[derive(Clone, Copy)]
struct Found(Outcome);

impl fmt::Display for Found {
    fn fmt<W: fmt::Write>(&self, f: &mut fmt::Formatter<W>) -> fmt::Result {
        match self.0 {
            Outcome::NoMatch => write!(f, "no match"),
            Outcome::Match(place, Action::Hold) => write!(f, "match {place}, hold"),
            Outcome::Match(place, Action::Deliver(feed)) => {
                write!(f, "match {place}, deliver to {feed}")
            }
        }
    }
}
