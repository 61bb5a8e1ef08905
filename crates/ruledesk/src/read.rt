// Reading to the end. No contract can say what a read brings, or that it was asked; what is said of each read is
// that held bytes stay, that what comes stands behind them, and that the whole length is the sum. Of `read_all` and
// `read_whole` that says nothing more, since any room and length could have come about so (`held_some`): their contract
// is the loop's invariant, by which a step that is wrong is refused.
ghost use Rattle.std.specs.Prelude.{◌≡◌, ◌<◌, length, IfOk};
ghost use Rattle.ruledesk.specs.Reading.{counted_in, ReadInto, Reads, Came, WholeRead};

use std::io::Read;
use std::rt::Files;
use std::{fs, io};

// "an unreadable file counts as 1": what cannot be read to its end counts as one byte, which is no whole
// rule and no whole header, so that the file is refused with 1 and the input with 8.
const UNREADABLE: usize = 1;

// The most bytes that one read passes over.
const MOST_PASSED: usize = 65536;

// What cannot be read to its end.
#[derive(Clone, Copy)]
struct Unreadable;

// The whole length with what `read` answered: `None` at the end. Nothing has 2^64 bytes: a length that is no `usize` is
// not read to its end.
fn count_in(whole: usize, answer: io::Result<usize>) -> Result<Option<usize>, Unreadable>
    ensures { result ≡ counted_in whole answer }
{
    let Ok(count) = answer else {
        return Err(Unreadable);
    };
    if count == 0 {
        return Ok(None);
    }
    Ok(Some(whole.checked_add(count).ok_or(Unreadable)?))
}

// One read into a part that is lent to it. Of no room it would answer 0, as at the end.
fn read_some<R: Read>(
    reader: &mut R,
    part: &mut [u8],
    whole: usize,
) -> Result<Option<usize>, Unreadable>
    requires { 0 < length part.old }
    ensures { ReadInto whole part.new result }
{
    count_in(whole, reader.read(part))
}

// One read, behind what is held. Once the room is full, bytes are counted and not kept.
fn read_on<R: Read>(
    reader: &mut R,
    room: &mut [u8],
    whole: usize,
) -> Result<Option<usize>, Unreadable>
    ensures { Reads room.old whole room.new result }
{
    if whole < room.len() {
        return read_some(reader, &mut room[whole..], whole);
    }
    let mut passed = [0u8; MOST_PASSED];
    read_some(reader, &mut passed, whole)
}

// Reads all, keeps the first bytes, as many as there is room for, and answers the whole length.
fn read_all<R: Read>(reader: &mut R, room: &mut [u8]) -> Result<usize, Unreadable>
    ensures { IfOk result (Came room.new) }
{
    let mut whole = 0;
    while let Some(next) = read_on(reader, room, whole)? {
        whole = next;
    }
    Ok(whole)
}

// The same, where what cannot be read counts, too.
pub fn read_whole<R: Read>(reader: &mut R, room: &mut [u8]) -> usize
    ensures { WholeRead room.new result }
{
    read_all(reader, room).unwrap_or(UNREADABLE)
}

// The same of a file by its name.
pub fn read_file<R: Files>(rt: &R, name: &str, room: &mut [u8]) -> usize
    ensures { WholeRead room.new result }
{
    match fs::open(rt, name) {
        Ok(mut file) => read_whole(&mut file, room),
        Err(_) => UNREADABLE,
    }
}
