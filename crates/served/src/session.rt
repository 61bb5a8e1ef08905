// The calls, one method for each op: it reads what comes after the table, calls the desk, and collects
// the answer with the lent memory after it.
use crate::op::Op;
use crate::replies::Replies;
use crate::requests::Requests;
use crate::sizes::{MOST_BYTES, MOST_ENTRIES, MOST_WORDS};
use crate::stop::Stop;
use rules::HEADER_BYTES;
use std::io::{Read, Write};

// Requests, replies, and the rooms of what a request lends beside its table.
#[derive(Drop)]
pub struct Session<R, W> {
    requests: Requests<R>,
    replies: Replies<W>,
    area: [u32; MOST_WORDS],
    list: [u16; MOST_ENTRIES],
    bytes: [u8; MOST_BYTES],
}

impl<R: Read, W: Write> Session<R, W> {
    pub fn new(input: R, output: W) -> Session<R, W> {
        Session {
            requests: Requests::new(input),
            replies: Replies::new(output),
            area: [0; MOST_WORDS],
            list: [0; MOST_ENTRIES],
            bytes: [0; MOST_BYTES],
        }
    }

    // Request after request, until one stops it. Nothing says that the input ends, so the loop counts its
    // turns, up to a number that no run uses up; an iterator of requests would have to count them too.
    pub fn serve(&mut self) -> Result<(), Stop> {
        // Apart from the session, which reads on while the table is lent.
        let mut room = [0; MOST_BYTES];
        for _ in 0..u64::MAX {
            self.serve_one(&mut room)?;
        }
        Ok(())
    }

    // One request and its reply. Every op begins with a table.
    fn serve_one(&mut self, room: &mut [u8]) -> Result<(), Stop> {
        let byte: u8 = self.requests.value()?;
        let op = Op::try_from(byte)?;
        let table = self.requests.bytes(room)?;
        match op {
            Op::Build => self.build(table),
            Op::Lookup => self.lookup(table),
            Op::Pairs => self.pairs(table),
            Op::Judge => self.judge(table),
            Op::Show => self.show(table),
            Op::Many => self.many(table),
        }?;
        self.replies.send()
    }

    fn build(&mut self, table: &[u8]) -> Result<(), Stop> {
        let area = self.requests.values(&mut self.area, self.replies.idle())?;
        self.replies.answer(face::ruledesk_build(table, area))?;
        self.replies.values(area)
    }

    fn lookup(&mut self, table: &[u8]) -> Result<(), Stop> {
        let area = self.requests.values(&mut self.area, self.replies.idle())?;
        let header = self.requests.bytes(&mut self.bytes)?;
        self.replies
            .answer(face::ruledesk_lookup(table, area, header))
    }

    fn pairs(&mut self, table: &[u8]) -> Result<(), Stop> {
        let list = self.requests.values(&mut self.list, self.replies.idle())?;
        self.replies.answer(face::ruledesk_pairs(table, list))?;
        self.replies.values(list)
    }

    // The answer goes out before the output.
    fn judge(&mut self, table: &[u8]) -> Result<(), Stop> {
        let order = self.requests.values(&mut self.list, self.replies.idle())?;
        let output = self.requests.bytes(&mut self.bytes)?;
        self.replies
            .answer(face::ruledesk_judge(table, order, output))?;
        self.replies.send()?;
        self.replies.values(output)
    }

    // 0 and the bytes of the shown part, each as a number.
    fn show(&mut self, table: &[u8]) -> Result<(), Stop> {
        let place: u32 = self.requests.value()?;
        let part = face::ruledesk_show(table, place as usize);
        let shown = table
            .get(part.start..)
            .and_then(|rest| rest.get(..part.length))
            .ok_or(Stop::End)?;
        self.replies.numbers(0, shown)
    }

    // The answers for all headers, one after the other.
    fn many(&mut self, table: &[u8]) -> Result<(), Stop> {
        let area = self.requests.values(&mut self.area, self.replies.idle())?;
        let (room, _) = self.bytes.as_chunks_mut::<HEADER_BYTES>();
        let headers = self.requests.values(room, self.replies.idle())?;
        for header in headers.iter() {
            self.replies
                .answer(face::ruledesk_lookup(table, area, header))?;
        }
        Ok(())
    }
}
