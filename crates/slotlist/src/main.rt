// Prints, by slot, the map of the entries and removals on standard input, or the first refusal.
// docs/RULES.md has the rule of its input and output.
#![tactic(auto)]

use lines::output;
use lines::streams::Streams;
use slotlist_core::{State, memory};

// Reads to the end of the input. The loop is bounded by 2^64 rounds, so that the proof can show
// that it ends.
fn feed_all(
    streams: &Streams,
    input: &mut [u8],
    nodes: &mut [u64],
    colours: &mut [u8],
    entries: &mut [u64],
) -> std::io::Result<State> {
    let mut state = State::new();
    for _ in 0..u64::MAX {
        let n = streams.read(input)?;
        if n == 0 {
            break;
        }
        state = state.feed(&input[..n], nodes, colours, entries);
    }
    Ok(state)
}

fn print(
    streams: &Streams,
    state: State,
    nodes: &mut [u64],
    colours: &mut [u8],
    entries: &mut [u64],
    out: &mut [u8],
) {
    let n = state.finish(nodes, colours, entries, out);
    output::flush(streams, out, n);
}

fn run(
    streams: &Streams,
    input: &mut [u8],
    nodes: &mut [u64],
    colours: &mut [u8],
    entries: &mut [u64],
    out: &mut [u8],
) {
    match feed_all(streams, input, nodes, colours, entries) {
        Ok(state) => print(streams, state, nodes, colours, entries, out),
        Err(_) => output::complain(streams, b"slotlist", b"read"),
    }
}

fn main(rt: HostRuntime) {
    let streams = Streams::new(&rt);
    let mut input = io::large_buffer();
    let mut nodes = memory::node_words();
    let mut colours = memory::colour_bytes();
    let mut entries = memory::entry_numbers();
    let mut out = memory::text_bytes();
    run(
        &streams,
        &mut input,
        &mut nodes,
        &mut colours,
        &mut entries,
        &mut out,
    );
    output::close(&streams, b"slotlist");
}
