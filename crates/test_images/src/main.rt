// Damages images in every way that one bit or one end can be damaged, and reads what is left. Each
// line of the input is an image in hexadecimal digits. Its line of the output has the number of its
// bytes; then five numbers about the image with one bit flipped, for each of its bits; then five
// about its first bytes, for each number of them from 0 up, and about the image with one byte more.
// The five numbers are how many were refused with 12, with 1 and with 2, how many were accepted and
// written back to the same bytes, and how many were accepted and written back to other bytes. The
// memory to read into has room for 64 entries.
#![tactic(auto)]

ghost use Rattle.std.specs.Prelude.{◌≡◌, true, false, ◌+◌, ◌≤◌, ◌<◌, length, IfSome};
ghost use Rattle.words.specs.Layouts.{HoldsIn};
ghost use Rattle.words.specs.Nodes.{HoldsBits};
ghost use Rattle.image_rule.specs.Layout.{count_in_lem, laid_out_lem};

use bitvec::{bit_at, put_bit};
use image::judge::judge;
use image::layout::{count_in, has_layout, image_length, root_in};
use image::load::load;
use image::write::write;
use lines::output;
use lines::streams::Streams;
use lines::whole::read_all;
use words::node::capacity;
use words::refusal::Refusal;

// Room for the whole input.
fn input_space() -> [u8; 65536]
    ensures { 65536 ≡ length result }
{
    [0; 65536]
}

// Room for an image.
fn image_space() -> [u8; 4096]
    ensures { 4096 ≡ length result }
{
    [0; 4096]
}

// What became of a number of damaged images.
#[derive(Clone, Copy, Default)]
struct Tally {
    layout: u64,
    room: u64,
    broken: u64,
    same: u64,
    other: u64,
}

// Adds one. No tally comes near the bound.
fn up(x: u64) -> u64 {
    if x < 1000000 { x + 1 } else { x }
}

// Counts what became of one more image: its refusal, or whether it was written back to the same
// bytes.
fn counted(t: Tally, what: Result<bool, Refusal>) -> Tally {
    match what {
        Err(Refusal::BadImage) => Tally {
            layout: up(t.layout),
            ..t
        },
        Err(Refusal::NoRoom) => Tally {
            room: up(t.room),
            ..t
        },
        Err(_) => Tally {
            broken: up(t.broken),
            ..t
        },
        Ok(true) => Tally {
            same: up(t.same),
            ..t
        },
        Ok(false) => Tally {
            other: up(t.other),
            ..t
        },
    }
}

fn show_tally(streams: &Streams, t: Tally) {
    for x in [t.layout, t.room, t.broken, t.same, t.other] {
        output::send(streams, b" ");
        output::send_number(streams, x);
    }
}

// Reads an image that was accepted, and writes it again. Returns whether the bytes are the same.
fn read_and_write(image: &[u8], nodes: &mut [u64], colours: &mut [u8], out: &mut [u8]) -> bool
    requires { (laid_out_lem image.now ≡ true) × HoldsIn false nodes.old (count_in_lem image.now) × HoldsBits colours.old (count_in_lem image.now) }
{
    let count = count_in(image);
    let root = root_in(image);
    load(nodes, false, colours, image);
    if (out.len() as u64) < image_length(count) {
        return false;
    }
    write(nodes, false, colours, count, root, out);
    out.starts_with(image)
}

// Reads an image, if it is accepted, and writes it again. Returns whether the bytes are the same.
fn read(
    image: &[u8],
    nodes: &mut [u64],
    colours: &mut [u8],
    out: &mut [u8],
) -> Result<bool, Refusal> {
    if has_layout(image) {
        if capacity(nodes.len(), false, colours.len()) < count_in(image) {
            Err(Refusal::NoRoom)
        } else if judge(image) {
            Ok(read_and_write(image, nodes, colours, out))
        } else {
            Err(Refusal::Broken)
        }
    } else {
        Err(Refusal::BadImage)
    }
}

// Reads an image into memory of its own.
fn outcome(image: &[u8]) -> Result<bool, Refusal> {
    let mut nodes = [7u64; 512];
    let mut colours = [165u8; 8];
    let mut out = image_space();
    read(image, &mut nodes, &mut colours, &mut out)
}

fn part_outcome(bytes: &[u8], n: usize) -> Result<bool, Refusal> {
    outcome(&bytes[..n.min(bytes.len())])
}

fn flip(bytes: &mut [u8], k: usize) {
    if k / 8 < bytes.len() {
        let b = bit_at(bytes, k);
        put_bit(bytes, k, !b);
    }
}

// The first n bytes, with each bit of them flipped by itself.
fn flips(bytes: &mut [u8], n: usize) -> Tally
    requires { n < 4096 }
{
    let mut t = Tally::default();
    for k in 0..n * 8 {
        flip(bytes, k);
        let what = part_outcome(bytes, n);
        flip(bytes, k);
        t = counted(t, what);
    }
    t
}

// The first bytes, for each number of them from 0 to n + 1.
fn cuts(bytes: &[u8], n: usize) -> Tally
    requires { n < 4096 }
{
    let mut t = Tally::default();
    for k in 0..n + 2 {
        let what = part_outcome(bytes, k);
        t = counted(t, what);
    }
    t
}

fn show(streams: &Streams, bytes: &mut [u8], n: usize)
    requires { n < 4096 }
{
    output::send_number(streams, n as u64);
    show_tally(streams, flips(bytes, n));
    show_tally(streams, cuts(bytes, n));
    output::send(streams, b"\n");
}

// Returns the value of a hexadecimal digit.
fn hex_of(b: u8) -> Option<u8>
    ensures { IfSome result (λ d. d < 16) }
{
    match b {
        b'0'..=b'9' => Some(b - b'0'),
        b'a'..=b'f' => Some(b - b'a' + 10),
        _ => None,
    }
}

// Returns the byte of two digits.
fn byte_of(high: u8, low: u8) -> Option<u8> {
    let high = hex_of(high)?;
    let low = hex_of(low)?;
    Some(high * 16 + low)
}

// How many bytes were decoded, and the place after the line.
#[derive(Clone, Copy)]
struct Line {
    bytes: usize,
    after: usize,
}

// Decodes a line of at most 4,095 pairs of digits.
fn decode(input: &[u8], at: usize, image: &mut [u8]) -> Line
    requires { (at < length input.now) × (4096 ≡ length image.old) }
    ensures { (result.bytes < 4096) × (at < result.after) × (result.after ≤ length input.now + 1) }
{
    let last = input.len() - 1;
    let mut i = at;
    let mut n = 0;
    while i < last {
        let Some(b) = byte_of(input[i], input[i + 1]) else {
            return Line {
                bytes: n,
                after: i + 1,
            };
        };
        if n == 4095 {
            return Line {
                bytes: n,
                after: i + 1,
            };
        }
        image[n] = b;
        n += 1;
        i += 2;
    }
    Line {
        bytes: n,
        after: i + 1,
    }
}

// Decodes the line at a place, and damages its image. Returns the place after the line.
fn line_at(streams: &Streams, input: &[u8], at: usize) -> usize
    requires { at < length input.now }
    ensures { (at < result) × (result ≤ length input.now + 1) }
{
    let mut image = image_space();
    let line = decode(input, at, &mut image);
    show(streams, &mut image, line.bytes);
    line.after
}

fn all_lines(streams: &Streams, input: &[u8]) {
    let mut at = 0;
    while at < input.len() {
        at = line_at(streams, input, at);
    }
}

// Whether the input has ended. After a failed read it may have: then what was read is all of it.
fn is_read(streams: &Streams) -> bool {
    let mut more = [0u8; 1];
    matches!(streams.read(&mut more), Ok(0))
}

fn read_lines(streams: &Streams, input: &mut [u8]) {
    let n = match read_all(streams, input) {
        Ok(n) => n,
        Err(cut) => cut.len,
    };
    if is_read(streams) {
        all_lines(streams, &input[..n]);
    } else {
        output::complain(streams, b"test_images", b"read all of its input");
    }
}

fn main(rt: HostRuntime) {
    let streams = Streams::new(&rt);
    let mut input = input_space();
    read_lines(&streams, &mut input);
    output::close(&streams, b"test_images");
}
