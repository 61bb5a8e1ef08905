// The desk program: the table from the file `rules.bin`, headers from standard input, one line a header to
// standard output (01: "The desk program"). `report::report` makes the whole text and is proved to make the one
// that specs/Program.antt says; the rest reads and writes.
#![tactic(auto)]

mod lines;
mod read;
mod report;

use report::{AREA_WORDS, MOST_INPUT, TABLE_BYTES, TEXT_BYTES};
use std::io::{self, Write};

fn main(rt: HostRuntime) -> io::Result<()> {
    let mut head = [0u8; TABLE_BYTES];
    let mut first = [0u8; MOST_INPUT];
    let mut area = [0u32; AREA_WORDS];
    let mut out = [0u8; TEXT_BYTES];
    let file = read::read_file(&rt, "rules.bin", &mut head);
    let input = read::read_whole(&mut rt.reader(), &mut first);
    let written = report::report(&head, file, &first, input, &mut area, &mut out);
    io::writer(&rt).write_all(&out[..written])
}
