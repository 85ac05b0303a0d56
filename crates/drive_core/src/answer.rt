// The output, and what the answers have in common: their numbers, and what a request changed.
use lines::output;
use lines::streams::Streams;

// The output's buffer, and the place of the next byte in it.
#[derive(Drop)]
pub struct Output<'a> {
    streams: &'a Streams,
    buffer: [u8; 65536],
    at: usize,
}

impl<'a> Output<'a> {
    pub(crate) fn new(streams: &'a Streams) -> Output<'a> {
        Output {
            streams,
            buffer: io::large_buffer(),
            at: 0,
        }
    }
}

impl Output<'_> {
    // Writes out what is in the buffer, and returns whether that succeeded.
    pub(crate) fn send(&mut self) -> bool {
        let streams = self.streams;
        let end = self.at.min(self.buffer.len());
        self.at = 0;
        let text = &self.buffer[..];
        streams.write(&text[..end])
    }

    fn text(&mut self, text: &[u8]) {
        let at = self.at;
        self.at = output::put_text(self.streams, &mut self.buffer, at, text);
    }

    // The answer to an invalid line. Nothing changes.
    pub(crate) fn what(&mut self) {
        self.text(b"what\n");
    }

    // Prints a number after a space.
    fn next(&mut self, x: u64) {
        let at = self.at;
        self.at = output::put_next(self.streams, &mut self.buffer, at, x);
    }

    // The numbers that an answer begins with. The first is the refusal's, 0 if there is none.
    pub(crate) fn numbers(&mut self, no: u64, others: &[u64]) {
        let at = self.at;
        self.at = output::put_number(self.streams, &mut self.buffer, at, no);
        for x in others {
            self.next(*x);
        }
    }

    // Prints a LIST: how many numbers there are, then each of them.
    pub(crate) fn list<T: Copy + Into<u64>>(&mut self, list: &[T]) {
        self.next(list.len() as u64);
        for x in list {
            self.next((*x).into());
        }
    }

    // An answer that has only its numbers.
    pub(crate) fn line(&mut self, no: u64, others: &[u64]) {
        self.numbers(no, others);
        self.end();
    }

    pub(crate) fn end(&mut self) {
        self.text(b"\n");
    }

    // The sign that is printed before what a request changed.
    pub(crate) fn sign(&mut self) {
        self.text(b" @");
    }

    // Prints what differs in the first n places of two lists: how many places differ, then each of
    // them and its new content.
    pub(crate) fn changes<T: Copy + PartialEq + Into<u64>>(
        &mut self,
        old: &[T],
        new: &[T],
        n: usize,
    ) {
        let pairs = old.iter().zip(new).take(n);
        let count = pairs.filter(|(x, y)| x != y).count();
        self.next(count as u64);
        for (i, (x, y)) in old.iter().zip(new).take(n).enumerate() {
            if x != y {
                self.next(i as u64);
                self.next((*y).into());
            }
        }
    }
}
