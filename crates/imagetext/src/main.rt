// Prints, by slot, the map in the image on standard input, or the image's refusal. docs/IMAGE.md
// has the form of the text. At most 14,000 entries fit.
#![tactic(auto)]

use image_text::memory;
use image_text::writing::{put_image, put_refusal};
use lines::output;
use lines::streams::Streams;
use lines::whole::read_all;
use words::refusal::Refusal;

// Prints the first n bytes as an image. If they fill the input, it is longer than any image that
// fits.
fn print(streams: &Streams, input: &[u8], n: usize, out: &mut [u8]) {
    let end = if n < input.len() {
        put_image(streams, out, &input[..n])
    } else {
        put_refusal(streams, out, Refusal::NoRoom.number())
    };
    output::flush(streams, out, end);
}

fn run(streams: &Streams, input: &mut [u8], out: &mut [u8]) {
    match read_all(streams, input) {
        Ok(n) => print(streams, input, n, out),
        Err(_) => output::complain(streams, b"imagetext", b"read"),
    }
}

fn main(rt: HostRuntime) {
    let streams = Streams::new(&rt);
    let mut input = memory::input_bytes();
    let mut out = io::large_buffer();
    run(&streams, &mut input, &mut out);
    output::close(&streams, b"imagetext");
}
