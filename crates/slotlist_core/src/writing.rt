// Writes what is printed, as text in a lent buffer. `at` is where the next byte goes. Each call
// returns the place after what it wrote. If the buffer is full, nothing is written.
ghost use Rattle.std.specs.Prelude.{◌≡◌, Ok, false};
ghost use Rattle.lines.specs.Output.{page, number, next};
ghost use Rattle.slotlist_core.specs.Text.{root_text, head, row, rows, refusal_text};
ghost use Rattle.slotlist_core.specs.Writing.{put_byte_lem, puts, checked_text, work_text};
ghost use Rattle.slotlist_core.specs.Working.{job};
ghost use Rattle.words.specs.Layouts.{HasIn, HoldsIn};
ghost use Rattle.words.specs.Refusals.{refusal_number};

use crate::working::Work;
use iset::{Map, Refusal};
use words::ix::U;
use words::node::{Entry, entry_of, slots_in};

fn put_byte(out: &mut [u8], at: usize, b: u8) -> usize
    ensures { page result out.new ≡ put_byte_lem (page at out.old) b }
{
    if at < out.len() {
        out[at] = b;
        return at + 1;
    }
    at
}

fn put_text(out: &mut [u8], at: usize, text: &[u8]) -> usize
    ensures { page result out.new ≡ puts (page at out.old) text.now }
{
    let mut to = at;
    for &b in text {
        to = put_byte(out, to, b);
    }
    to
}

fn put_number(out: &mut [u8], at: usize, n: u64) -> usize
    ensures { page result out.new ≡ puts (page at out.old) (number n) }
{
    let mut text = [0u8; 20];
    let k = io::decimal(n, &mut text);
    put_text(out, at, &text[..k])
}

// Writes a space and a number.
fn put_next(out: &mut [u8], at: usize, n: u64) -> usize
    ensures { page result out.new ≡ puts (page at out.old) (next n) }
{
    let to = put_byte(out, at, b' ');
    put_number(out, to, n)
}

fn put_root(out: &mut [u8], at: usize, root: u64) -> usize
    ensures { page result out.new ≡ puts (page at out.old) (root_text root) }
{
    if root == U {
        put_byte(out, at, b'-')
    } else {
        put_number(out, at, root)
    }
}

fn put_head(out: &mut [u8], map: Map) -> usize
    ensures { page result out.new ≡ puts (page 0 out.old) (head map.count map.root) }
{
    let a = put_text(out, 0, b"count ");
    let b = put_number(out, a, map.count);
    let c = put_text(out, b, b" root ");
    let d = put_root(out, c, map.root);
    put_byte(out, d, b'\n')
}

// Writes the line of a slot.
fn put_row(out: &mut [u8], at: usize, nodes: &[u64], slot: u64) -> usize
    requires { HasIn false nodes.now slot }
    ensures { page result out.new ≡ puts (page at out.old) (row nodes.now slot) }
{
    let e = entry_of(nodes, false, slot);
    let a = put_number(out, at, slot);
    let b = put_next(out, a, e.start);
    let c = put_next(out, b, e.end);
    let d = put_next(out, c, e.value);
    put_byte(out, d, b'\n')
}

fn put_rows(out: &mut [u8], at: usize, nodes: &[u64], count: u64) -> usize
    requires { HoldsIn false nodes.now count }
    ensures { page result out.new ≡ puts (page at out.old) (rows nodes.now 0 count) }
{
    let mut to = at;
    for slot in 0..count {
        to = put_row(out, to, nodes, slot);
    }
    to
}

pub(crate) fn put_refusal(out: &mut [u8], why: Refusal) -> usize
    ensures { page result out.new ≡ puts (page 0 out.old) (refusal_text (refusal_number why)) }
{
    let a = put_text(out, 0, b"refused ");
    let b = put_number(out, a, why.number());
    put_byte(out, b, b'\n')
}

// Writes a map. If its count is above 65,535 or above what the words hold, writes a refusal.
fn put_map(out: &mut [u8], map: Map, nodes: &[u64]) -> usize
    ensures { page result out.new ≡ puts (page 0 out.old) (checked_text map nodes.now) }
{
    let count = map.count;
    if slots_in(nodes.len(), false).min(65535) < count {
        return put_refusal(out, Refusal::NoRoom);
    }
    let to = put_head(out, map);
    put_rows(out, to, nodes, count)
}

impl Work {
    // Writes what is printed at the end.
    pub(crate) fn put(self, nodes: &[u64], out: &mut [u8]) -> usize
        ensures { page result out.new ≡ puts (page 0 out.old) (work_text (job (Ok self)) nodes.now) }
    {
        match self {
            Work::Listing(_) => 0,
            Work::Mapped(map) => put_map(out, map, nodes),
        }
    }
}
