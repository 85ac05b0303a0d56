// Writes the image of the map whose text is on standard input, or the text's refusal. docs/IMAGE.md
// has the form of the text. At most 14,000 entries fit.
#![tactic(auto)]

use image_text::memory;
use image_text::reading::State;
use image_text::writing::put_refusal;
use lines::output;
use lines::streams::Streams;

// Reads to the end of the input. The loop is bounded by 2^64 rounds, so that the proof can show
// that it ends.
fn feed_all(streams: &Streams, input: &mut [u8], image: &mut [u8]) -> std::io::Result<State> {
    let mut state = State::new();
    for _ in 0..u64::MAX {
        let n = streams.read(input)?;
        if n == 0 {
            break;
        }
        state = state.feed(&input[..n], image);
    }
    Ok(state)
}

fn print(streams: &Streams, state: State, image: &mut [u8], out: &mut [u8]) {
    match state.finish(image) {
        Ok(n) => {
            output::flush(streams, image, n);
        }
        Err(why) => {
            let end = put_refusal(streams, out, why.number());
            output::flush(streams, out, end);
        }
    }
}

fn run(streams: &Streams, input: &mut [u8], image: &mut [u8]) {
    match feed_all(streams, input, image) {
        Ok(state) => print(streams, state, image, input),
        Err(_) => output::complain(streams, b"textimage", b"read"),
    }
}

fn main(rt: HostRuntime) {
    let streams = Streams::new(&rt);
    let mut input = io::large_buffer();
    let mut image = memory::image_bytes();
    run(&streams, &mut input, &mut image);
    output::close(&streams, b"textimage");
}
