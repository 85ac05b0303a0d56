// Renumbers the map in the image on standard input by the plan in a file, and writes the new image.
// The file's name is the program's argument. docs/MANUAL.md, 'Tidy at night', has the form of a
// plan and the messages. Nothing is written unless the image and the whole plan are accepted.
#![tactic(auto)]

ghost use Rattle.std.specs.Prelude.{◌≤◌, length};

use iset::{Map, Refusal};
use lines::output;
use lines::streams::Streams;
use lines::whole::read_all;
use plan_text::memory;
use plan_text::reading::{Flaw, State};
use plan_text::refusing::refuse_image;
use plan_text::writing::put_flaw;
use std::env::FillError;
use std::fs::File;
use std::io::{Error, ErrorKind, Read};
use std::rt::Env;
use std::str;

// Reads the plan to its end. The loop is bounded by 2^64 rounds, so that the proof can show that it
// ends.
fn feed_all(
    file: &mut File,
    input: &mut [u8],
    plan: &mut [u64],
    lines: &mut [u64],
) -> Result<State, Error> {
    let mut state = State::new();
    for _ in 0..u64::MAX {
        let n = file.read(input)?;
        if n == 0 {
            break;
        }
        state = state.feed(&input[..n], plan, lines);
    }
    Ok(state)
}

// The system's number of the error that a name is too long.
const NAME_TOO_LONG: i32 = 36;

// Opens the plan, whose name is the program's argument. It has to be text.
fn open_plan(rt: &HostRuntime) -> Result<File, Error> {
    let mut name = io::buffer();
    match rt.arg(1, &mut name) {
        Ok(n) => match str::from_utf8(&name[..n]) {
            Ok(path) => File::open(rt, path),
            Err(_) => Err(Error::from(ErrorKind::InvalidFilename)),
        },
        Err(FillError::TooLong) => Err(Error::from_raw_os_error(NAME_TOO_LONG)),
        Err(FillError::NotPresent) => Err(Error::from(ErrorKind::NotFound)),
    }
}

// Says what is wrong with the plan, through a buffer that holds any such text.
fn tell(streams: &Streams, flaw: Flaw, out: &mut [u8]) {
    let n = put_flaw(streams, out, Err(flaw));
    if n <= out.len() {
        output::complain(streams, b"tidyapply", &out[..n]);
    }
}

// Ends the plan. Whether it is accepted; if not, says why.
fn is_accepted(
    streams: &Streams,
    state: State,
    plan: &mut [u64],
    lines: &mut [u64],
    out: &mut [u8],
) -> bool {
    match state.finish(plan, lines) {
        Ok(()) => true,
        Err(flaw) => {
            tell(streams, flaw, out);
            false
        }
    }
}

// Reads the plan from an open file. Whether it is accepted; if not, says why.
fn read_plan(
    streams: &Streams,
    file: File,
    input: &mut [u8],
    plan: &mut [u64],
    lines: &mut [u64],
) -> bool {
    let mut file = file;
    match feed_all(&mut file, input, plan, lines) {
        Ok(state) => is_accepted(streams, state, plan, lines, input),
        Err(_) => {
            output::complain(streams, b"tidyapply", b"read the plan");
            false
        }
    }
}

// Says why the plan cannot be opened, in the system's words, without the number that follows them.
fn tell_why(streams: &Streams, text: &str) {
    let why = match text.split_once(" (os error ") {
        Some((words, _)) => words,
        None => text,
    };
    streams.tell(b"tidyapply: cannot open the plan: ");
    streams.tell(why.as_bytes());
    streams.tell(b"\n");
}

fn refuse_plan(rt: &HostRuntime, streams: &Streams, error: Error) {
    match error.to_string(rt.alloc()) {
        Ok(text) => tell_why(streams, text.as_str()),
        Err(_) => output::complain(streams, b"tidyapply", b"open the plan"),
    }
}

// Opens and reads the plan. Whether it is accepted; if not, says why.
fn take_plan(
    rt: &HostRuntime,
    streams: &Streams,
    input: &mut [u8],
    plan: &mut [u64],
    lines: &mut [u64],
) -> bool {
    match open_plan(rt) {
        Ok(file) => read_plan(streams, file, input, plan, lines),
        Err(e) => {
            refuse_plan(rt, streams, e);
            false
        }
    }
}

// Writes the image of the new map.
fn save(streams: &Streams, map: Map, nodes: &[u64], colours: &[u8], image: &mut [u8]) {
    match map.write_image_in(nodes, true, colours, image) {
        Ok(n) => {
            output::flush(streams, image, n as usize);
        }
        Err(_) => output::complain(streams, b"tidyapply", b"write the image"),
    }
}

// Renumbers the map by an accepted plan.
fn apply(
    streams: &Streams,
    map: Map,
    image: &mut [u8],
    nodes: &mut [u64],
    colours: &mut [u8],
    plan: &[u64],
) {
    match map.renumber_in(nodes, true, colours, plan) {
        Ok(tidy) => save(streams, tidy, nodes, colours, image),
        Err(_) => output::complain(streams, b"tidyapply", b"renumber the map"),
    }
}

// Reads the plan of a map that was read, and renumbers by it.
fn follow(
    rt: &HostRuntime,
    streams: &Streams,
    map: Map,
    image: &mut [u8],
    nodes: &mut [u64],
    colours: &mut [u8],
    plan: &mut [u64],
    lines: &mut [u64],
    input: &mut [u8],
) {
    let n = (map.count as usize).min(plan.len()).min(lines.len());
    if take_plan(rt, streams, input, &mut plan[..n], &mut lines[..n]) {
        apply(streams, map, image, nodes, colours, &plan[..n]);
    }
}

// Reads the map of the first n bytes.
fn load(
    rt: &HostRuntime,
    streams: &Streams,
    n: usize,
    image: &mut [u8],
    nodes: &mut [u64],
    colours: &mut [u8],
    plan: &mut [u64],
    lines: &mut [u64],
    input: &mut [u8],
)
    requires { n ≤ length image.old }
{
    match Map::new().read_image_in(nodes, true, colours, &image[..n]) {
        Ok(map) => follow(rt, streams, map, image, nodes, colours, plan, lines, input),
        Err(why) => refuse_image(streams, b"tidyapply", why.number()),
    }
}

// If the bytes fill the image's memory, the input is longer than any image.
fn run(
    rt: &HostRuntime,
    streams: &Streams,
    image: &mut [u8],
    nodes: &mut [u64],
    colours: &mut [u8],
    plan: &mut [u64],
    lines: &mut [u64],
    input: &mut [u8],
) {
    match read_all(streams, image) {
        Ok(n) if n < image.len() => {
            load(rt, streams, n, image, nodes, colours, plan, lines, input);
        }
        Ok(_) => refuse_image(streams, b"tidyapply", Refusal::NoRoom.number()),
        Err(_) => output::complain(streams, b"tidyapply", b"read"),
    }
}

fn with_memory(rt: &HostRuntime, streams: &Streams) {
    let mut image = memory::image_bytes();
    let mut nodes = memory::node_words();
    let mut colours = memory::colour_bytes();
    let mut plan = memory::plan_numbers();
    let mut lines = memory::line_numbers();
    let mut input = io::large_buffer();
    run(
        rt,
        streams,
        &mut image,
        &mut nodes,
        &mut colours,
        &mut plan,
        &mut lines,
        &mut input,
    );
}

// Whether the program has one argument.
fn has_plan(rt: &HostRuntime) -> bool {
    let mut name = [0u8; 1];
    !is_absent(rt.arg(1, &mut name)) & is_absent(rt.arg(2, &mut name))
}

fn is_absent(arg: Result<usize, FillError>) -> bool {
    matches!(arg, Err(FillError::NotPresent))
}

fn main(rt: HostRuntime) {
    let streams = Streams::new(&rt);
    if has_plan(&rt) {
        with_memory(&rt, &streams);
    } else {
        streams.tell(b"usage: tidyapply PLAN <IMAGE >NEW-IMAGE\n");
    }
    output::close(&streams, b"tidyapply");
}
