// Runs many inputs of `slotlist`, and prints for each what slotlist prints. An input is a line
// `LENGTH PIECE`, then LENGTH bytes, which are fed in pieces of PIECE bytes.
#![tactic(auto)]

ghost use Rattle.std.specs.Prelude.{◌≡◌, ◌<◌, ◌≤◌, length};

use lines::input::digit_of;
use lines::output;
use lines::streams::Streams;
use lines::whole::read_all;
use slotlist_core::{State, memory};

const MOST: usize = 131072;

// Room for all the cases.
fn cases_space() -> [u8; 131072]
    ensures { 131072 ≡ length result }
{
    [0; 131072]
}

// A number, and the place after the byte that ends it.
#[derive(Clone, Copy)]
struct Number {
    value: usize,
    after: usize,
}

// Adds a digit to a number. A number of MOST or more becomes MOST: no case is that long.
fn longer(value: usize, d: u64) -> usize
    ensures { result ≤ 131072 }
{
    if value < MOST {
        if d < 10 {
            return (value * 10 + d as usize).min(MOST);
        }
    }
    MOST
}

fn read_number(input: &[u8], at: usize) -> Number
    ensures { result.after ≤ length input.now }
{
    let mut value = 0;
    for i in at..input.len() {
        let Some(d) = digit_of(input[i]) else {
            return Number {
                value,
                after: i + 1,
            };
        };
        value = longer(value, d);
    }
    Number {
        value,
        after: input.len(),
    }
}

// Feeds an input in pieces of `size` bytes.
fn feed_pieces(
    input: &[u8],
    size: usize,
    nodes: &mut [u64],
    colours: &mut [u8],
    entries: &mut [u64],
) -> State
    requires { 0 < size }
{
    let mut state = State::new();
    for piece in input.chunks(size) {
        state = state.feed(piece, nodes, colours, entries);
    }
    state
}

fn run(
    streams: &Streams,
    input: &[u8],
    size: usize,
    nodes: &mut [u64],
    colours: &mut [u8],
    entries: &mut [u64],
    out: &mut [u8],
)
    requires { 0 < size }
{
    let state = feed_pieces(input, size, nodes, colours, entries);
    let n = state.finish(nodes, colours, entries, out);
    output::flush(streams, out, n);
}

// Runs one case, in memory that no other case uses, in pieces of `size` bytes.
fn case(streams: &Streams, input: &[u8], size: usize)
    requires { 0 < size }
{
    let mut nodes = memory::node_words();
    let mut colours = memory::colour_bytes();
    let mut entries = memory::entry_numbers();
    let mut out = memory::text_bytes();
    run(
        streams,
        input,
        size,
        &mut nodes,
        &mut colours,
        &mut entries,
        &mut out,
    );
}

// Runs the case at a place, and returns the place after it.
fn case_at(streams: &Streams, cases: &[u8], at: usize) -> usize
    ensures { result ≤ length cases.now }
{
    let len = read_number(cases, at);
    let size = read_number(cases, len.after);
    let from = size.after;
    let to = from + len.value.min(cases.len() - from);
    case(streams, &cases[from..to], size.value.max(1));
    to
}

// Runs all cases. A case has at least two bytes, so the places rise. If a place does not rise, the
// run ends.
fn all_cases(streams: &Streams, cases: &[u8]) {
    let mut at = 0;
    while at < cases.len() {
        let next = case_at(streams, cases, at);
        if next <= at {
            return;
        }
        at = next;
    }
}

// Whether the input has ended. After a failed read it may have: then what was read is all of it.
fn is_read(streams: &Streams) -> bool {
    let mut more = [0u8; 1];
    matches!(streams.read(&mut more), Ok(0))
}

fn read_cases(streams: &Streams, cases: &mut [u8]) {
    let n = match read_all(streams, cases) {
        Ok(n) => n,
        Err(cut) => cut.len,
    };
    if is_read(streams) {
        all_cases(streams, &cases[..n]);
    } else {
        output::complain(streams, b"test_slotcases", b"read all of its input");
    }
}

fn main(rt: HostRuntime) {
    let streams = Streams::new(&rt);
    let mut cases = cases_space();
    read_cases(&streams, &mut cases);
    output::close(&streams, b"test_slotcases");
}
