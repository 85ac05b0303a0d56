// Standard input, line by line.
ghost use Rattle.std.specs.Prelude.{◌≤◌};

use lines::streams::Streams;
use std::io;

const LINE_END: u8 = 10;

// What was read and not used yet: the bytes from `at` up to `end`.
#[derive(Clone, Copy)]
pub(crate) struct Input {
    bytes: [u8; 4096],
    at: usize,
    end: usize,
    ghost within: { (at ≤ end) × (end ≤ 4096) },
}

// A line: its bytes, unless there are more than there is room for, and whether it is the last.
#[derive(Clone, Copy)]
pub(crate) struct Line<'a> {
    pub text: Option<&'a [u8]>,
    pub last: bool,
}

impl Input {
    pub(crate) fn new() -> Input {
        Input {
            bytes: [0; 4096],
            at: 0,
            end: 0,
        }
    }

    // The next byte, or None at the end of the input. A file fills the buffer; a pipe or a terminal
    // gives what it has by now.
    fn next(&mut self, streams: &Streams) -> io::Result<Option<u8>> {
        if self.at == self.end {
            self.at = 0;
            self.end = streams.read(&mut self.bytes)?;
            if self.end == 0 {
                return Ok(None);
            }
        }
        let byte = self.bytes[self.at];
        self.at += 1;
        Ok(Some(byte))
    }

    // Reads a line. The last line may lack its end. The loop is bounded by 2^64 rounds, so that the
    // proof can show that it ends.
    pub(crate) fn line<'a>(
        &mut self,
        streams: &Streams,
        room: &'a mut [u8],
    ) -> io::Result<Line<'a>> {
        let mut size: usize = 0;
        let mut last = false;
        for _ in 0..u64::MAX {
            match self.next(streams)? {
                Some(LINE_END) => break,
                Some(byte) => {
                    if let Some(place) = room.get_mut(size) {
                        *place = byte;
                    }
                    size = size.saturating_add(1);
                }
                None => {
                    last = true;
                    break;
                }
            }
        }
        Ok(Line {
            text: room.get(..size),
            last,
        })
    }
}
