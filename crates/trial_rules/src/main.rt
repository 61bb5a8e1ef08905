// Runs the record rules on small tables and headers and prints what they answer, a line each.
#![tactic(auto)]

use rules::{HEADER_BYTES, Header, MOST_RULES, RECORD_BYTES, Refusal};
use std::{fmt, io};
use trial::Refused;

// 257 rules and a byte.
const MOST_BYTES: usize = (MOST_RULES + 1) * RECORD_BYTES + 1;

static ZEROS: [u8; MOST_BYTES] = [0; MOST_BYTES];

fn main(rt: HostRuntime) -> io::Result<()> {
    lengths(&rt)?;
    sizes(&rt)?;
    single_faults(&rt)?;
    ports(&rt)?;
    two_faults(&rt)?;
    faults_in_two_rules(&rt)?;
    headers(&rt)?;
    shown_rules(&rt)
}

// Each field's largest prefix length, and one more; a port's with protocol 6, which has ports.
fn lengths(rt: &impl Print) -> io::Result<()> {
    for (name, changes) in [
        ("source address length 32", &[(13, 32)][..]),
        ("source address length 33", &[(13, 33)][..]),
        ("destination address length 32", &[(14, 32)][..]),
        ("destination address length 33", &[(14, 33)][..]),
        ("source port length 16", &[(12, 6), (17, 8), (15, 16)][..]),
        ("source port length 17", &[(12, 6), (17, 8), (15, 17)][..]),
        (
            "destination port length 16",
            &[(12, 6), (17, 8), (16, 16)][..],
        ),
        (
            "destination port length 17",
            &[(12, 6), (17, 8), (16, 17)][..],
        ),
        ("protocol length 8", &[(17, 8)][..]),
        ("protocol length 9", &[(17, 9)][..]),
    ] {
        report(rt, name, &table_with::<RECORD_BYTES>(changes))?;
    }
    Ok(())
}

// Tables by their length in bytes.
fn sizes(rt: &impl Print) -> io::Result<()> {
    for (name, length) in [
        ("no rule", 0),
        ("23 bytes", 23),
        ("24 bytes", 24),
        ("25 bytes", 25),
        ("47 bytes", 47),
        ("256 rules", 6144),
        ("257 rules", 6168),
        ("256 rules and a byte", 6145),
        ("257 rules and a byte", 6169),
    ] {
        report(rt, name, front(&ZEROS, length))?;
    }
    Ok(())
}

// Each of 3 to 6 alone; 14 is below.
fn single_faults(rt: &impl Print) -> io::Result<()> {
    for (name, at, byte) in [
        ("length 255", 13, 255),
        ("a bit after the prefix", 3, 1),
        ("kind 1", 18, 1),
        ("kind 2", 18, 2),
        ("kind 255", 18, 255),
        ("hold with a feed", 19, 1),
        ("a spare byte set", 20, 1),
        ("the last byte set", 23, 128),
    ] {
        report(rt, name, &table_with::<RECORD_BYTES>(&[(at, byte)]))?;
    }
    Ok(())
}

// Q-1 of 02: protocols with ports and without, a prefix of one that has them, and every way to ask for a port.
fn ports(rt: &impl Print) -> io::Result<()> {
    for (name, value, length) in [
        ("protocol 0", 0, 8),
        ("protocol 1", 1, 8),
        ("protocol 6", 6, 8),
        ("protocol 17", 17, 8),
        ("protocol 255", 255, 8),
        ("protocol 6 at length 7", 6, 7),
    ] {
        protocol(rt, name, value, length)?;
    }
    Ok(())
}

// A protocol's prefix without ports, and with the source port, the destination port and both, at the least length and at the whole.
fn protocol(rt: &impl Print, name: &str, value: u8, length: u8) -> io::Result<()> {
    for (source, destination) in [(0, 0), (1, 0), (0, 1), (1, 1), (16, 0), (0, 16), (16, 16)] {
        let table = table_with::<RECORD_BYTES>(&[
            (12, value),
            (15, source),
            (16, destination),
            (17, length),
        ]);
        println!(rt;
            "{name}, port lengths {source} {destination}: {}",
            Verdict(rules::check_table(&table))
        )?;
    }
    Ok(())
}

// Two faults in one rule.
fn two_faults(rt: &impl Print) -> io::Result<()> {
    for (name, first, second) in [
        ("3 and 4", (13, 33), (8, 1)),
        ("4 and 5", (12, 1), (18, 9)),
        ("5 and 6", (18, 2), (22, 1)),
        ("3 and 6", (17, 9), (20, 1)),
        ("3 and 14", (16, 17), (15, 16)),
        ("4 and 14", (8, 1), (16, 16)),
        ("5 and 14", (18, 2), (15, 16)),
        ("6 and 14", (23, 1), (16, 16)),
    ] {
        report(rt, name, &table_with::<RECORD_BYTES>(&[first, second]))?;
    }
    Ok(())
}

// A fault in each of two rules, of three.
fn faults_in_two_rules(rt: &impl Print) -> io::Result<()> {
    for (name, first, second) in [
        ("6 at place 1, 3 at place 2", (44, 1), (61, 33)),
        ("5 at place 0, 4 at place 1", (18, 2), (24, 1)),
        ("4 at place 2 alone", (48, 1), (48, 1)),
        ("14 at place 0, 3 at place 1", (15, 16), (37, 33)),
        ("6 at place 0, 14 at place 1", (20, 1), (39, 16)),
        ("14 at places 1 and 2", (40, 1), (63, 16)),
    ] {
        report(rt, name, &table_with::<72>(&[first, second]))?;
    }
    Ok(())
}

// Header lengths.
fn headers(rt: &impl Print) -> io::Result<()> {
    let bytes = [7; HEADER_BYTES + 1];
    for (name, length) in [
        ("header of 12 bytes", 12),
        ("header of 13 bytes", 13),
        ("header of 14 bytes", 14),
        ("header of 0 bytes", 0),
    ] {
        match Header::try_from(front(&bytes, length)) {
            Ok(header) => println!(rt;
                "{name}: {} to port {}, protocol {}",
                header.source, header.dport, header.protocol
            )?,
            Err(refusal) => println!(rt; "{name}: {}", Refused(refusal))?,
        }
    }
    Ok(())
}

// Rules by place: a whole record, past the last, and in a table that is no multiple of 24.
fn shown_rules(rt: &impl Print) -> io::Result<()> {
    for (name, length, place) in [
        ("place 0 of one rule", 24, 0),
        ("place 1 of one rule", 24, 1),
        ("place 1 of 47 bytes", 47, 1),
        ("place 1 of 48 bytes", 48, 1),
        ("place 256 of 257 rules", 6168, 256),
        ("the largest place", 24, usize::MAX),
    ] {
        let part = desk::show(front(&ZEROS, length), place);
        println!(rt; "{name}: {} bytes", part.len())?;
    }
    Ok(())
}

// A table of zeros, whose rules hold everything, with some other bytes: each after its place.
fn table_with<const BYTES: usize>(changes: &[(usize, u8)]) -> [u8; BYTES] {
    let mut table = [0; BYTES];
    for (at, byte) in changes {
        if let Some(changed) = table.get_mut(*at) {
            *changed = *byte;
        }
    }
    table
}

// The first `length` bytes, or all where there are fewer.
fn front(bytes: &[u8], length: usize) -> &[u8] {
    &bytes[..length.min(bytes.len())]
}

fn report(rt: &impl Print, name: &str, table: &[u8]) -> io::Result<()> {
    println!(rt; "{name}: {}", Verdict(rules::check_table(table)))
}

#[derive(Drop)]
struct Verdict(Result<(), Refusal>);

impl fmt::Display for Verdict {
    fn fmt<W: fmt::Write>(&self, f: &mut fmt::Formatter<W>) -> fmt::Result {
        match self.0 {
            Ok(()) => write!(f, "accepted"),
            Err(refusal) => write!(f, "{}", Refused(refusal)),
        }
    }
}
