// Runs the pair list and the judgement of moves on the six rules, on no rule and on 256 rules, and
// prints what they answer and what they leave.
#![tactic(auto)]

use rules::{MOST_RULES, RECORD_BYTES, Refusal};
use samples::{Pattern, SIX_BYTES, TABLE_BYTES};
use std::{fmt, io};
use trial::Refused;

fn main(rt: HostRuntime) -> io::Result<()> {
    let mut table = [0; TABLE_BYTES];
    let mut output = [9; TABLE_BYTES];
    samples::six_rules(&mut table);
    pair_lists(&rt, &table)?;
    orders(&rt, &table, &mut output)?;
    let mut order = [0; MOST_RULES];
    samples::reverse(&mut order);
    for (name, pattern) in [
        ("256 equal rules reversed", Pattern::Equal),
        ("256 feeds reversed", Pattern::OwnFeed),
    ] {
        samples::fill(&mut table, pattern);
        judge(&rt, name, &table, &order, &mut output, TABLE_BYTES)?;
    }
    Ok(())
}

// Lists of one pair: one entry short, exact, and longer.
fn pair_lists(rt: &impl Print, table: &[u8; TABLE_BYTES]) -> io::Result<()> {
    let six = &table[..SIX_BYTES];
    let mut list = [7; 3];
    for (name, table, entries) in [
        ("list of 1", six, 1),
        ("list of 2", six, 2),
        ("list of 3", six, 3),
        ("no rule, list of 0", &table[..0], 0),
        ("a byte too many", &table[..145], 3),
    ] {
        pairs(rt, name, table, &mut list, entries)?;
    }
    Ok(())
}

// Lists in the first entries.
fn pairs(
    rt: &impl Print,
    name: &str,
    table: &[u8],
    list: &mut [u16],
    entries: usize,
) -> io::Result<()> {
    let entries = entries.min(list.len());
    match desk::pairs(table, &mut list[..entries]) {
        Ok(count) => println!(rt; "{name}: {count} pairs; list{}", Entries(list)),
        Err(refusal) => println!(rt; "{name}: {}; list{}", Refused(refusal), Entries(list)),
    }
}

// Orders of the six rules that are allowed, that are refused, and that are none; then orders of no rule.
fn orders(rt: &impl Print, table: &[u8; TABLE_BYTES], output: &mut [u8]) -> io::Result<()> {
    let six = &table[..SIX_BYTES];
    let none = &table[..0];
    for (name, table, order, room) in [
        ("left in place", six, &[0, 1, 2, 3, 4, 5][..], 144),
        ("4 and 5 exchanged", six, &[0, 1, 2, 3, 5, 4][..], 145),
        ("0 and 1 exchanged", six, &[1, 0, 2, 3, 4, 5][..], 144),
        ("2 and 3 exchanged", six, &[0, 1, 3, 2, 4, 5][..], 144),
        ("output a byte short", six, &[1, 0, 2, 3, 4, 5][..], 143),
        ("order of 5", six, &[0, 1, 2, 3, 4][..], 144),
        ("order of 7", six, &[0, 1, 2, 3, 4, 5, 6][..], 144),
        ("entry 6", six, &[0, 1, 2, 3, 4, 6][..], 144),
        ("entry 65535", six, &[65535, 1, 2, 3, 4, 5][..], 144),
        ("entry repeated", six, &[0, 1, 2, 3, 4, 4][..], 143),
        ("no rule, no order", none, &[][..], 0),
        ("no rule, order of 1", none, &[0][..], 0),
    ] {
        judge(rt, name, table, order, output, room)?;
    }
    Ok(())
}

// Moves to the first bytes of the output.
fn judge(
    rt: &impl Print,
    name: &str,
    table: &[u8],
    order: &[u16],
    output: &mut [u8],
    room: usize,
) -> io::Result<()> {
    let room = room.min(output.len());
    let judgement = Judgement(desk::judge(table, order, &mut output[..room]));
    println!(rt; "{name}: {judgement}; feeds{}", Feeds(output))
}

// A pair list, each place after a space.
#[derive(Clone, Copy)]
struct Entries<'a>(&'a [u16]);

impl fmt::Display for Entries<'_> {
    fn fmt<W: fmt::Write>(&self, f: &mut fmt::Formatter<W>) -> fmt::Result {
        for place in self.0 {
            write!(f, " {place}")?;
        }
        Ok(())
    }
}

#[derive(Drop)]
struct Judgement(Result<(), Refusal>);

impl fmt::Display for Judgement {
    fn fmt<W: fmt::Write>(&self, f: &mut fmt::Formatter<W>) -> fmt::Result {
        let Err(refusal) = self.0 else {
            return write!(f, "allowed");
        };
        write!(f, "{}", Refused(refusal))?;
        if let Refusal::NotAllowed(crossing) = refusal {
            let header = crossing.header;
            write!(f, ", pair {} {}, header ", crossing.lower, crossing.higher)?;
            write!(
                f,
                "{} {} {} {} {}",
                header.source, header.destination, header.sport, header.dport, header.protocol
            )?;
        }
        Ok(())
    }
}

// The feeds of the first six records.
#[derive(Clone, Copy)]
struct Feeds<'a>(&'a [u8]);

impl fmt::Display for Feeds<'_> {
    fn fmt<W: fmt::Write>(&self, f: &mut fmt::Formatter<W>) -> fmt::Result {
        let (records, _) = self.0.as_chunks::<RECORD_BYTES>();
        for record in records.iter().take(6) {
            write!(f, " {}", record[19])?;
        }
        Ok(())
    }
}
