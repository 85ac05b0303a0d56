// Prints a plan for the image on standard input: for each slot, its place in tree order.
// docs/MANUAL.md, 'Tidy at night', says what an operator does with it. At most 65,535 entries fit,
// which is the most that a map can have.
#![tactic(auto)]

use iset::{Map, Refusal};
use lines::output;
use lines::streams::Streams;
use lines::whole::read_all;
use plan_text::memory;
use plan_text::refusing::refuse_image;
use plan_text::writing::put_plan;

fn print(streams: &Streams, count: u64, plan: &[u64], out: &mut [u8]) {
    let n = (count as usize).min(plan.len());
    let end = put_plan(streams, out, &plan[..n]);
    output::flush(streams, out, end);
}

// Writes a plan for the map of an image, and returns the map.
fn propose(
    image: &[u8],
    nodes: &mut [u64],
    colours: &mut [u8],
    plan: &mut [u64],
) -> Result<Map, Refusal> {
    let map = Map::new().read_image_in(nodes, true, colours, image)?;
    map.propose_in(nodes, true, colours, plan)?;
    Ok(map)
}

// Prints the plan of an image.
fn load(
    streams: &Streams,
    image: &[u8],
    nodes: &mut [u64],
    colours: &mut [u8],
    plan: &mut [u64],
    out: &mut [u8],
) {
    match propose(image, nodes, colours, plan) {
        Ok(map) => print(streams, map.count, plan, out),
        Err(why) => refuse_image(streams, b"tidyplan", why.number()),
    }
}

// If the bytes fill the input, it is longer than any image.
fn run(
    streams: &Streams,
    input: &mut [u8],
    nodes: &mut [u64],
    colours: &mut [u8],
    plan: &mut [u64],
    out: &mut [u8],
) {
    match read_all(streams, input) {
        Ok(n) if n < input.len() => load(streams, &input[..n], nodes, colours, plan, out),
        Ok(_) => refuse_image(streams, b"tidyplan", Refusal::NoRoom.number()),
        Err(_) => output::complain(streams, b"tidyplan", b"read"),
    }
}

fn main(rt: HostRuntime) {
    let streams = Streams::new(&rt);
    let mut input = memory::image_bytes();
    let mut nodes = memory::node_words();
    let mut colours = memory::colour_bytes();
    let mut plan = memory::plan_numbers();
    let mut out = io::large_buffer();
    run(
        &streams,
        &mut input,
        &mut nodes,
        &mut colours,
        &mut plan,
        &mut out,
    );
    output::close(&streams, b"tidyplan");
}
