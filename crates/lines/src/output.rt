// Collects text in a lent buffer, and writes it out when the buffer is full. `at` is where the next
// byte goes. Each call returns the place after what it wrote.
ghost use Rattle.std.specs.Prelude.{◌≡◌};
ghost use Rattle.lines.specs.Output.{page, front, out_byte, out_text, number, next};

use crate::streams::Streams;

// Writes a text to standard output. If that fails, nothing is written after the missing part, and
// `close` reports that a write failed.
pub fn send(streams: &Streams, text: &[u8]) {
    streams.write(text);
}

pub fn send_number(streams: &Streams, x: u64) {
    let mut text = [0u8; 20];
    let k = io::decimal(x, &mut text);
    send(streams, &text[..k]);
}

// Writes a line to standard error: the program's name, and what the program cannot do.
pub fn complain(streams: &Streams, name: &[u8], what: &[u8]) {
    streams.tell(name);
    streams.tell(b": cannot ");
    streams.tell(what);
    streams.tell(b"\n");
}

// Ends standard output, as a program's last act. It complains if an earlier write failed, or if
// standard output takes not even nothing.
pub fn close(streams: &Streams, name: &[u8]) {
    if !streams.is_open() {
        complain(streams, name, b"write");
    }
}

// Writes out what is in the buffer. Then the buffer is empty.
pub fn flush(streams: &Streams, out: &[u8], at: usize) -> usize
    ensures { result ≡ 0 }
{
    if at <= out.len() {
        send(streams, &out[..at]);
    }
    0
}

fn first_byte(out: &mut [u8], b: u8) -> usize
    ensures { page result out.new ≡ front out.old b }
{
    if out.is_empty() {
        return 0;
    }
    out[0] = b;
    1
}

pub fn put_byte(streams: &Streams, out: &mut [u8], at: usize, b: u8) -> usize
    ensures { page result out.new ≡ out_byte (page at out.old) b }
{
    if at < out.len() {
        out[at] = b;
        return at + 1;
    }
    flush(streams, out, at);
    first_byte(out, b)
}

pub fn put_text(streams: &Streams, out: &mut [u8], at: usize, text: &[u8]) -> usize
    ensures { page result out.new ≡ out_text (page at out.old) text.now }
{
    let mut to = at;
    for &b in text {
        to = put_byte(streams, out, to, b);
    }
    to
}

pub fn put_number(streams: &Streams, out: &mut [u8], at: usize, x: u64) -> usize
    ensures { page result out.new ≡ out_text (page at out.old) (number x) }
{
    let mut text = [0u8; 20];
    let k = io::decimal(x, &mut text);
    put_text(streams, out, at, &text[..k])
}

// Writes a space and a number.
pub fn put_next(streams: &Streams, out: &mut [u8], at: usize, x: u64) -> usize
    ensures { page result out.new ≡ out_text (page at out.old) (next x) }
{
    let to = put_byte(streams, out, at, b' ');
    put_number(streams, out, to, x)
}
