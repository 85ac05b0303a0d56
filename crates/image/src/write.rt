// Writing the image of a map. Every number goes to the place after the last one.
ghost use Rattle.std.specs.Prelude.{◌≡◌, cond, [], ◌∷◌, ◌+◌, ◌*◌, ◌/◌, ◌%◌, ◌^◌, ◌≤◌, ◌<◌, eqb, length, take, get_or};
ghost use Rattle.std.proofs.lemmas.List.Edits.{sets};
ghost use Rattle.words.specs.Layouts.{as_eight, HoldsIn};
ghost use Rattle.words.specs.Nodes.{HoldsBits};
ghost use Rattle.bitvec.specs.Calls.{bytes_for};
ghost use Rattle.image_rule.specs.Layout.{links_at_lem, colours_at_lem, image_length_lem};
ghost use Rattle.image_rule.specs.Written.{fields, header, entries, links, shades, image_of};

use crate::layout::{colour_bytes, colours_at, links_at};
use bitvec::weight;
use little::{put_u32, put_u64};
use words::node::{Entry, child_of, entry_of, parent_of};

// Writes three numbers of four bytes each.
fn put_three(out: &mut [u8], at: usize, a: u64, b: u64, c: u64)
    requires { at + 12 ≤ length out.old }
    ensures { out.new ≡ sets out.old at (fields 4 (a ∷ b ∷ c ∷ [])) }
{
    put_u32(out, at, a);
    put_u32(out, at + 4, b);
    put_u32(out, at + 8, c);
}

// Writes the table of contents: kind, offset and length of each body.
fn put_table(out: &mut [u8], count: u64)
    requires { (count ≤ 65535) × (44 ≤ length out.old) }
    ensures { out.new ≡ sets out.old 8 (fields 4 (1 ∷ 44 ∷ (count * 24) ∷ 2 ∷ links_at_lem count ∷ (count * 12) ∷ 3 ∷ colours_at_lem count ∷ bytes_for count ∷ [])) }
{
    let links = links_at(count);
    let colours = colours_at(count);
    let bytes = colour_bytes(count);
    put_three(out, 8, 1, 44, count * 24);
    put_three(out, 20, 2, links, count * 12);
    put_three(out, 32, 3, colours, bytes);
}

// Writes count and root, and the table.
pub fn put_header(out: &mut [u8], count: u64, root: u64)
    requires { (count ≤ 65535) × (44 ≤ length out.old) }
    ensures { out.new ≡ sets out.old 0 (header count root) }
{
    put_u32(out, 0, count);
    put_u32(out, 4, root);
    put_table(out, count);
}

fn put_entry(out: &mut [u8], at: usize, e: Entry)
    requires { at + 24 ≤ length out.old }
    ensures { out.new ≡ sets out.old at (fields 8 (e.start ∷ e.end ∷ e.value ∷ [])) }
{
    put_u64(out, at, e.start);
    put_u64(out, at + 8, e.end);
    put_u64(out, at + 16, e.value);
}

// Writes the entries of all slots.
fn put_entries(nodes: &[u64], narrow: bool, count: u64, out: &mut [u8])
    requires { HoldsIn narrow nodes.now count × (links_at_lem count ≤ length out.old) }
    ensures { out.new ≡ sets out.old 44 (entries (as_eight narrow nodes.now) count) }
{
    for s in 0..count {
        let e = entry_of(nodes, narrow, s);
        put_entry(out, (44 + s * 24) as usize, e);
    }
}

// Writes the links of all slots.
fn put_links(nodes: &[u64], narrow: bool, count: u64, out: &mut [u8])
    requires { HoldsIn narrow nodes.now count × (colours_at_lem count ≤ length out.old) }
    ensures { out.new ≡ sets out.old (links_at_lem count) (links (as_eight narrow nodes.now) count) }
{
    for s in 0..count {
        let left = child_of(nodes, narrow, s, true);
        let right = child_of(nodes, narrow, s, false);
        let up = parent_of(nodes, narrow, s);
        put_three(out, (44 + count * 24 + s * 12) as usize, left, right, up);
    }
}

// Copies the first n bytes of the colours to place `at`, byte by byte: `copy_from_slice` would have
// an archive for C need `memmove`.
fn put_whole_bytes(colours: &[u8], n: usize, out: &mut [u8], at: usize)
    requires { (n ≤ length colours.now) × (at + n ≤ length out.old) }
    ensures { out.new ≡ sets out.old at (take n colours.now) }
{
    for j in 0..n {
        out[at + j] = colours[j];
    }
}

// Writes the colour bits that fill no whole byte, if there are any. The spare bits are written as
// 0.
fn put_last_bits(colours: &[u8], count: u64, out: &mut [u8], at: usize)
    requires { HoldsBits colours.now count × (at + (count + 7) / 8 ≤ length out.old + count / 8) }
    ensures { out.new ≡ sets out.old at (cond (eqb (count % 8) 0) [] (get_or colours.now (count / 8) 0 % 2 ^ (count % 8) ∷ [])) }
{
    if count % 8 != 0 {
        let b = colours[(count / 8) as usize];
        out[at] = b % weight((count % 8) as usize);
    }
}

// Writes the colours of all slots.
fn put_colours(colours: &[u8], count: u64, out: &mut [u8])
    requires { (count ≤ 65535) × HoldsBits colours.now count × (colours_at_lem count + (count + 7) / 8 ≤ length out.old) }
    ensures { out.new ≡ sets out.old (colours_at_lem count) (shades colours.now count) }
{
    let at = colours_at(count) as usize;
    let n = (count / 8) as usize;
    put_whole_bytes(colours, n, out, at);
    put_last_bits(colours, count, out, at + n);
}

// Writes the image of a map. Bytes after the image stay unchanged.
pub fn write(nodes: &[u64], narrow: bool, colours: &[u8], count: u64, root: u64, out: &mut [u8])
    requires { HoldsIn narrow nodes.now count × HoldsBits colours.now count × (image_length_lem count ≤ length out.old) }
    ensures { out.new ≡ sets out.old 0 (image_of count root (as_eight narrow nodes.now) colours.now) }
{
    put_header(out, count, root);
    put_entries(nodes, narrow, count, out);
    put_links(nodes, narrow, count, out);
    put_colours(colours, count, out);
}
