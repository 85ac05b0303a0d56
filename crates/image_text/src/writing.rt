// Prints an image as text, through a lent buffer that goes out when it is full. `at` is where the
// next byte goes. Each call returns the place after what it wrote.
ghost use Rattle.std.specs.Prelude.{◌≡◌, true, ◌≤◌, ◌<◌};
ghost use Rattle.image_rule.specs.Layout.{Bodies, laid_out_lem, count_in_lem};
ghost use Rattle.lines.specs.Output.{page, out_text};
ghost use Rattle.image_text.specs.Text.{link_text, head, entry_text, links_text, colour_text, row, rows, map_text, refusal_text, image_text_lem};

use crate::judging::check;
use image::layout::{count_in, root_in};
use image::stored::{entry_in, link_in, red_in};
use lines::output::{put_byte, put_next, put_number, put_text};
use lines::streams::Streams;
use words::ix::U;
use words::node::Entry;

// Writes a space and a link.
fn put_link(streams: &Streams, out: &mut [u8], at: usize, link: u64) -> usize
    ensures { page result out.new ≡ out_text (page at out.old) (link_text link) }
{
    if link == U {
        put_text(streams, out, at, b" -")
    } else {
        put_next(streams, out, at, link)
    }
}

fn put_head(streams: &Streams, out: &mut [u8], count: u64, root: u64) -> usize
    ensures { page result out.new ≡ out_text (page 0 out.old) (head count root) }
{
    let a = put_text(streams, out, 0, b"count ");
    let b = put_number(streams, out, a, count);
    let c = put_text(streams, out, b, b" root");
    let d = put_link(streams, out, c, root);
    put_byte(streams, out, d, b'\n')
}

// Writes a slot and its entry.
fn put_entry(streams: &Streams, out: &mut [u8], at: usize, slot: u64, e: Entry) -> usize
    ensures { page result out.new ≡ out_text (page at out.old) (entry_text slot e) }
{
    let a = put_number(streams, out, at, slot);
    let b = put_next(streams, out, a, e.start);
    let c = put_next(streams, out, b, e.end);
    put_next(streams, out, c, e.value)
}

fn put_links(
    streams: &Streams,
    out: &mut [u8],
    at: usize,
    left: u64,
    right: u64,
    parent: u64,
) -> usize
    ensures { page result out.new ≡ out_text (page at out.old) (links_text left right parent) }
{
    let a = put_link(streams, out, at, left);
    let b = put_link(streams, out, a, right);
    put_link(streams, out, b, parent)
}

// Writes a colour and the end of the line.
fn put_colour(streams: &Streams, out: &mut [u8], at: usize, red: bool) -> usize
    ensures { page result out.new ≡ out_text (page at out.old) (colour_text red) }
{
    if red {
        put_text(streams, out, at, b" red\n")
    } else {
        put_text(streams, out, at, b" black\n")
    }
}

// Writes the line of a slot.
fn put_row(
    streams: &Streams,
    out: &mut [u8],
    at: usize,
    image: &[u8],
    count: u64,
    slot: u64,
) -> usize
    requires { Bodies image.now count × (slot < count) }
    ensures { page result out.new ≡ out_text (page at out.old) (row image.now count slot) }
{
    let e = entry_in(image, count, slot);
    let left = link_in(image, count, slot, 0);
    let right = link_in(image, count, slot, 1);
    let parent = link_in(image, count, slot, 2);
    let red = red_in(image, count, slot);
    let a = put_entry(streams, out, at, slot, e);
    let b = put_links(streams, out, a, left, right, parent);
    put_colour(streams, out, b, red)
}

fn put_rows(streams: &Streams, out: &mut [u8], at: usize, image: &[u8], count: u64) -> usize
    requires { Bodies image.now count }
    ensures { page result out.new ≡ out_text (page at out.old) (rows image.now count 0 count) }
{
    let mut to = at;
    for slot in 0..count {
        to = put_row(streams, out, to, image, count, slot);
    }
    to
}

fn put_map(streams: &Streams, out: &mut [u8], image: &[u8]) -> usize
    requires { (laid_out_lem image.now ≡ true) × (count_in_lem image.now ≤ 65535) }
    ensures { page result out.new ≡ out_text (page 0 out.old) (map_text image.now) }
{
    let count = count_in(image);
    let root = root_in(image);
    let to = put_head(streams, out, count, root);
    put_rows(streams, out, to, image, count)
}

// Writes `refused N`.
pub fn put_refusal(streams: &Streams, out: &mut [u8], why: u64) -> usize
    ensures { page result out.new ≡ out_text (page 0 out.old) (refusal_text why) }
{
    let a = put_text(streams, out, 0, b"refused ");
    let b = put_number(streams, out, a, why);
    put_byte(streams, out, b, b'\n')
}

// Writes an image as text. If the image is refused, writes the refusal.
pub fn put_image(streams: &Streams, out: &mut [u8], image: &[u8]) -> usize
    ensures { page result out.new ≡ out_text (page 0 out.old) (image_text_lem image.now) }
{
    match check(image) {
        Ok(()) => put_map(streams, out, image),
        Err(why) => put_refusal(streams, out, why.number()),
    }
}
