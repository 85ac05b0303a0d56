// Standard input, line by line.
use crate::call;
use crate::call::Call;
use io::large_buffer;
use lines::input::Line;
use lines::streams::Streams;
use std::io::Result;

const LINE_END: u8 = 10;

// The longest name. A longer one makes the line invalid.
const MOST_LETTERS: usize = 32;

// What was read: the place of the next byte in the buffer, where the bytes end, and whether the
// input has ended.
#[derive(Drop)]
pub struct Input<'a> {
    streams: &'a Streams,
    buffer: [u8; 65536],
    at: usize,
    end: usize,
    is_ended: bool,
}

impl<'a> Input<'a> {
    pub(crate) fn new(streams: &'a Streams) -> Input<'a> {
        Input {
            streams,
            buffer: large_buffer(),
            at: 0,
            end: 0,
            is_ended: false,
        }
    }
}

impl Input<'_> {
    // Reads again, and returns the first byte, or None at the end of the input. A file fills the
    // buffer; a pipe or a terminal gives what it has by now.
    fn refilled(&mut self) -> Result<Option<u8>> {
        self.at = 0;
        self.end = 0;
        let n = self.streams.read(&mut self.buffer)?;
        if n == 0 {
            self.is_ended = true;
            return Ok(None);
        }
        self.at = 1;
        self.end = n;
        Ok(self.buffer.first().copied())
    }

    // Whether the rest of the buffer has a line's end.
    pub(crate) fn has_line(&self) -> bool {
        let text = &self.buffer[..];
        let end = self.end.min(text.len());
        text[self.at.min(end)..end].contains(&LINE_END)
    }

    pub(crate) fn is_ended(&self) -> bool {
        self.is_ended
    }

    fn next(&mut self) -> Result<Option<u8>> {
        if self.at < self.end.min(self.buffer.len()) {
            let b = self.buffer[self.at];
            self.at += 1;
            return Ok(Some(b));
        }
        self.refilled()
    }

    // Reads a line, and leaves its numbers in `numbers`. The last line may lack its end. If nothing
    // is left, the line is empty and asks for nothing, so there is always one. The loop is bounded
    // by 2^64 rounds, so that the proof can show that it ends.
    pub(crate) fn line<'b>(&mut self, numbers: &'b mut [u64]) -> Result<Call<'b>> {
        let mut name = [0; MOST_LETTERS];
        let mut line = Line::new();
        for _ in 0..u64::MAX {
            match self.next()? {
                None | Some(LINE_END) => break,
                Some(b) => line = line.byte(b, &mut name, numbers),
            }
        }
        let line = line.end(numbers);
        Ok(call::call_of(line, &name, numbers))
    }
}
