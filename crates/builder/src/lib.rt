// Builds the store of a map from a sorted list, by recursion over its spans. A span is the slots
// [start, end). It is built in its own part of the node words. The colours are lent whole, because
// a colour is a bit among others of its byte.
#![tactic(auto)]

pub mod list;

ghost use Rattle.std.specs.Prelude.{◌≡◌, true, ◌+◌, ◌*◌, ◌-◌, ◌/◌, ◌≤◌, ◌<◌, length};
ghost use Rattle.words.specs.Layouts.{as_eight, up_fits_lem, HoldsIn};
ghost use Rattle.words.specs.Nodes.{put_node_lem, HoldsBits, words_of};
ghost use Rattle.builder.specs.Input.{entry_of};
ghost use Rattle.builder.specs.Build.{center, root_of_lem, span_hull, span_words, painted, log, levels, build_words, build_colours, build_root, Lent};

use crate::list::{entry_at, interval_at};
use bitvec::put_bit;
use words::interval::Interval;
use words::ix::U;
use words::node::{put_node, words_of};

// Returns the greatest D such that 2^D <= m, for m from 1 up and below 2^(g + 1).
fn log_of(g: u64, m: usize) -> u64
    requires { g < 65 }
    ensures { (result ≡ log g m) × (result ≤ g) }
{
    if g == 0 {
        return 0;
    }
    if m <= 1 {
        return 0;
    }
    log_of(g - 1, m / 2) + 1
}

// Returns the number of levels of a map of n entries: those that it fills, and a last one, which is
// red.
fn max_depth(n: usize) -> u64
    requires { n ≤ 65535 }
    ensures { (result ≡ levels n) × (result < 18) }
{
    log_of(16, n + 1) + 1
}

// Returns the link to the root of the slots [start, end), or U, the undefined link, if there are
// none.
fn root_of(start: usize, end: usize) -> u64
    ensures { result ≡ root_of_lem start end }
{
    if start < end {
        (start + (end - start) / 2) as u64
    } else {
        U
    }
}

// Writes the root of the slots [start, end) in their part of the node words.
fn put_root(
    list: &[u64],
    nodes: &mut [u64],
    narrow: bool,
    start: usize,
    end: usize,
    parent: u64,
    hull: Interval,
)
    requires { (end * 3 ≤ length list.now) × (length (as_eight narrow nodes.old) ≡ words_of (end - start)) × (start < end)
        × (end ≤ 65535) × (up_fits_lem narrow parent ≡ true) }
    ensures { as_eight narrow nodes.new
        ≡ put_node_lem (as_eight narrow nodes.old) ((end - start) / 2) (entry_of list.now (center start end)) hull
        (root_of_lem start (center start end)) (root_of_lem (center start end + 1) end) parent }
{
    let half = (end - start) / 2;
    let center = start + half;
    let entry = entry_at(list, center);
    let left = root_of(start, center);
    let right = root_of(center + 1, end);
    put_node(nodes, narrow, half as u64, entry, hull, left, right, parent);
}

// Writes the only slot of a span, whose words are `nodes`. Returns `seen`, extended by the slot's
// interval.
fn put_leaf(
    list: &[u64],
    nodes: &mut [u64],
    narrow: bool,
    colours: &mut [u8],
    slot: usize,
    rev_depth: u64,
    parent: u64,
    seen: Interval,
) -> Interval
    requires { Lent list.now (as_eight narrow nodes.old) colours.old slot (slot + 1) rev_depth × (up_fits_lem narrow parent ≡ true) }
    ensures { (result ≡ span_hull list.now rev_depth slot (slot + 1) seen)
        × (as_eight narrow nodes.new ≡ span_words list.now rev_depth slot (slot + 1) parent)
        × (colours.new ≡ painted rev_depth colours.old slot (slot + 1)) }
{
    let own = interval_at(list, slot);
    put_bit(colours, slot, rev_depth == 1);
    put_node(nodes, narrow, 0, entry_at(list, slot), own, U, U, parent);
    seen.extend(own)
}

// Initializes the slots [start, end), whose words are `nodes`, below `parent`. `rev_depth` is the
// inverse depth: it is highest in the top call, and 1 at the lowest level, which is red. Returns
// `seen`, extended by the intervals of these slots.
fn init_from_sorted(
    list: &[u64],
    nodes: &mut [u64],
    narrow: bool,
    colours: &mut [u8],
    start: usize,
    end: usize,
    rev_depth: u64,
    parent: u64,
    seen: Interval,
) -> Interval
    requires { Lent list.now (as_eight narrow nodes.old) colours.old start end rev_depth × (end ≤ 65535) × (up_fits_lem narrow parent ≡ true) }
    ensures { (result ≡ span_hull list.now rev_depth start end seen)
        × (as_eight narrow nodes.new ≡ span_words list.now rev_depth start end parent)
        × (colours.new ≡ painted rev_depth colours.old start end) }
{
    if end <= start {
        return seen;
    }
    if end - start == 1 {
        return put_leaf(list, nodes, narrow, colours, start, rev_depth, parent, seen);
    }
    let half = (end - start) / 2;
    let center = start + half;
    let own = interval_at(list, center);
    put_bit(colours, center, rev_depth == 1);
    let left = init_from_sorted(
        list,
        &mut nodes[..words_of(half, narrow)],
        narrow,
        colours,
        start,
        center,
        rev_depth - 1,
        center as u64,
        own,
    );
    let hull = init_from_sorted(
        list,
        &mut nodes[words_of(half + 1, narrow)..],
        narrow,
        colours,
        center + 1,
        end,
        rev_depth - 1,
        center as u64,
        left,
    );
    put_root(list, nodes, narrow, start, end, parent, hull);
    seen.extend(hull)
}

// Builds the store of the first n triples of the list. Returns its root. Slots and colour bits from
// n up stay unchanged.
pub fn from_sorted(
    list: &[u64],
    nodes: &mut [u64],
    narrow: bool,
    colours: &mut [u8],
    n: usize,
) -> u64
    requires { (n * 3 ≤ length list.now) × HoldsIn narrow nodes.old n × HoldsBits colours.old n }
    ensures { (result ≡ build_root n) × (as_eight narrow nodes.new ≡ build_words list.now n (as_eight narrow nodes.old))
        × (colours.new ≡ build_colours n colours.old) }
{
    let none = Interval { start: 0, end: 0 };
    init_from_sorted(
        list,
        &mut nodes[..words_of(n, narrow)],
        narrow,
        colours,
        0,
        n,
        max_depth(n),
        U,
        none,
    );
    root_of(0, n)
}
