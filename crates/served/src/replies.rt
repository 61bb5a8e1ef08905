// Writing replies: answers and lent memory are collected, and go out by one write.
use crate::big_endian::BigEndian;
use crate::sizes::REPLY_BYTES;
use crate::stop::Stop;
use face::Answer;
use std::io::{Cursor, Write};

#[derive(Drop)]
pub struct Replies<W> {
    output: W,
    reply: Cursor<[u8; REPLY_BYTES]>,
}

impl<W: Write> Replies<W> {
    pub fn new(output: W) -> Replies<W> {
        Replies {
            output,
            reply: Cursor::new([0; REPLY_BYTES]),
        }
    }

    // What replies are collected in, for a request to arrive in: there is none of a reply before the whole request is there.
    pub fn idle(&mut self) -> &mut [u8] {
        self.reply.get_mut()
    }

    // The desk's answer, which is in 01's numbers already.
    pub fn answer(&mut self, answer: Answer) -> Result<(), Stop> {
        let carried = answer.values.get(..answer.count as usize).ok_or(Stop::End)?;
        self.numbers(answer.number, carried)
    }

    // How many numbers there are, and then the numbers.
    pub fn numbers<T: Copy + Into<u64>>(&mut self, first: u32, others: &[T]) -> Result<(), Stop> {
        self.values(&[low_bits(others.len().saturating_add(1) as u64), first])?;
        let room = self.room::<u32, 4>(others.len())?;
        for (bytes, other) in room.iter_mut().zip(others) {
            *bytes = low_bits((*other).into()).to_bytes();
        }
        Ok(())
    }

    pub fn values<T: BigEndian<N>, const N: usize>(&mut self, values: &[T]) -> Result<(), Stop> {
        let room = self.room::<T, N>(values.len())?;
        for (bytes, value) in room.iter_mut().zip(values) {
            *bytes = value.to_bytes();
        }
        Ok(())
    }

    // The bytes that so many values take next. Asked for at once: a write for each value takes longer than the value.
    fn room<T: BigEndian<N>, const N: usize>(
        &mut self,
        count: usize,
    ) -> Result<&mut [[u8; N]], Stop> {
        let start = self.reply.position() as usize;
        let end = count.saturating_mul(N).saturating_add(start);
        self.reply.set_position(end as u64);
        let bytes = self.reply.get_mut().get_mut(start..end).ok_or(Stop::End)?;
        let (room, _) = bytes.as_chunks_mut::<N>();
        Ok(room)
    }

    // Writes what was collected, at once.
    pub fn send(&mut self) -> Result<(), Stop> {
        let end = self.reply.position() as usize;
        let collected = self.reply.get_ref().get(..end).ok_or(Stop::End)?;
        self.output.write_all(collected)?;
        self.output.flush()?;
        self.reply.set_position(0);
        Ok(())
    }
}

// The lowest 32 bits. Every number of the protocol has no more.
fn low_bits(number: u64) -> u32 {
    (number % 0x1_0000_0000) as u32
}
