// Reading requests: a value, or as many values as the number before them says.
use crate::big_endian::BigEndian;
use crate::stop::Stop;
use std::io::{ErrorKind, Read};

#[derive(Drop)]
pub struct Requests<R> {
    input: R,
}

impl<R: Read> Requests<R> {
    pub fn new(input: R) -> Requests<R> {
        Requests { input }
    }

    pub fn value<T: BigEndian<N>, const N: usize>(&mut self) -> Result<T, Stop> {
        let mut bytes = [0; N];
        fill(&mut self.input, &mut bytes)?;
        Ok(T::from_bytes(bytes))
    }

    // A count and so many bytes, which stand in the room as they come.
    pub fn bytes<'a>(&mut self, room: &'a mut [u8]) -> Result<&'a mut [u8], Stop> {
        let bytes = self.counted(room)?;
        fill(&mut self.input, bytes)?;
        Ok(bytes)
    }

    // A count and so many values, whose bytes arrive in a buffer that is free until the reply.
    pub fn values<'a, T: BigEndian<N>, const N: usize>(
        &mut self,
        room: &'a mut [T],
        arriving: &mut [u8],
    ) -> Result<&'a mut [T], Stop> {
        let values = self.counted(room)?;
        let (chunks, _) = arriving.as_chunks_mut::<N>();
        let chunks = chunks.get_mut(..values.len()).ok_or(Stop::End)?;
        fill(&mut self.input, chunks.as_flattened_mut())?;
        for (value, bytes) in values.iter_mut().zip(chunks.iter()) {
            *value = T::from_bytes(*bytes);
        }
        Ok(values)
    }

    // As much of the room, from its start, as the next number says.
    fn counted<'a, T>(&mut self, room: &'a mut [T]) -> Result<&'a mut [T], Stop> {
        let count: u32 = self.value()?;
        room.get_mut(..count as usize).ok_or(Stop::End)
    }
}

// Reads until the buffer is full.
fn fill<R: Read>(input: &mut R, buffer: &mut [u8]) -> Result<(), Stop> {
    input
        .read_exact(buffer)
        .map_err(|error| match error.kind() {
            ErrorKind::UnexpectedEof => Stop::End,
            _ => Stop::Failure(error),
        })
}
