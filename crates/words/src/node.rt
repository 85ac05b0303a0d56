// The words of a node, read and written by slot: eight words, or six where `narrow` holds. Only
// this file and `links` know the place of each word in its node.
ghost use Rattle.std.specs.Prelude.{◌≡◌, true, ◌+◌, ◌*◌, ◌<◌, ◌≤◌, length};
ghost use Rattle.words.specs.Layouts.{packed_place_lem, field_in, field_put, unpack, as_eight, kid_fits, up_fits_lem, field_fits, node_words_lem, HoldsIn, HasIn, slots_as, capacity_as};
ghost use Rattle.words.specs.Nodes.{place, word, put, start, stop, value, lo, hi, kid, par, interval, hull, entry, put_kid, put_par, put_entry_lem, put_hull_lem, put_node_lem, swap, joined, hull_of, altered, fix};

use crate::interval::Interval;
use crate::ix::slot_at;
use crate::links::{child_in, widened, with_child, with_parent};

// Returns how many words the nodes of so many slots take. The words of a store can be cut there.
pub fn words_of(slots: usize, narrow: bool) -> usize
    requires { slots ≤ 65535 }
    ensures { (result ≡ slots * node_words_lem narrow) × (result ≤ slots * 8) }
{
    if narrow { slots * 6 } else { slots * 8 }
}

// What a slot holds for its user: an interval and a value.
#[derive(Clone, Copy)]
pub struct Entry {
    pub start: u64,
    pub end: u64,
    pub value: u64,
}

// Returns how many slots `words` node words hold.
pub fn slots_in(words: usize, narrow: bool) -> u64
    ensures { result ≡ slots_as narrow words }
{
    if narrow {
        (words / 6) as u64
    } else {
        (words / 8) as u64
    }
}

// Returns how many entries `words` node words and `bytes` colour bytes can hold, at most 65,535.
pub fn capacity(words: usize, narrow: bool, bytes: usize) -> u64
    ensures { result ≡ capacity_as narrow words bytes }
{
    let nodes = slots_in(words, narrow);
    if bytes < 8192 {
        return nodes.min((bytes * 8) as u64).min(65535);
    }
    nodes.min(65535)
}

// The words of a node. The hull of a slot is the least interval that contains the intervals of its
// subtree. A child link is the left one if its bool is true, else the right one.
#[derive(Clone, Copy)]
pub enum Field {
    Start,
    End,
    Value,
    HullStart,
    HullEnd,
    Child(bool),
    Parent,
}

impl Field {
    // Returns the word's place among the eight words of its node.
    fn place(self) -> u64
        ensures { (result ≡ place self) × (result < 8) }
    {
        match self {
            Field::Start => 0,
            Field::End => 1,
            Field::Value => 2,
            Field::HullStart => 3,
            Field::HullEnd => 4,
            Field::Child(left_side) => if left_side { 5 } else { 6 },
            Field::Parent => 7,
        }
    }

    // Returns the place of its word among the six words of its node.
    fn packed_place(self) -> u64
        ensures { (result ≡ packed_place_lem self) × (result < 6) }
    {
        match self {
            Field::Start => 0,
            Field::End => 1,
            Field::Value => 2,
            Field::HullStart => 3,
            Field::HullEnd => 4,
            Field::Child(_) | Field::Parent => 5,
        }
    }

    // Returns what the word at that place holds of the field.
    fn read_in(self, w: u64) -> u64
        ensures { (result ≡ field_in self w) × (field_fits true self result ≡ true) }
    {
        match self {
            Field::Start | Field::End | Field::Value | Field::HullStart | Field::HullEnd => w,
            Field::Child(left_side) => child_in(w, left_side),
            Field::Parent => widened(w / 4294967296),
        }
    }

    // Returns that word with v written for the field.
    fn put_in(self, w: u64, v: u64) -> u64
        requires { field_fits true self v ≡ true }
        ensures { result ≡ field_put self w v }
    {
        match self {
            Field::Start | Field::End | Field::Value | Field::HullStart | Field::HullEnd => v,
            Field::Child(left_side) => with_child(w, left_side, v),
            Field::Parent => with_parent(w, v),
        }
    }
}

fn packed_word(nodes: &[u64], s: u64, f: Field) -> u64
    requires { s * 6 + 6 ≤ length nodes.now }
    ensures { (result ≡ word (unpack nodes.now) f s) × (field_fits true f result ≡ true) }
{
    f.read_in(nodes[(s * 6 + f.packed_place()) as usize])
}

fn put_packed(nodes: &mut [u64], s: u64, f: Field, v: u64)
    requires { (s * 6 + 6 ≤ length nodes.old) × (field_fits true f v ≡ true) }
    ensures { unpack nodes.new ≡ put (unpack nodes.old) f s v }
{
    let i = (s * 6 + f.packed_place()) as usize;
    let w = nodes[i];
    nodes[i] = f.put_in(w, v);
}

fn word_of(nodes: &[u64], narrow: bool, s: u64, f: Field) -> u64
    requires { HasIn narrow nodes.now s }
    ensures { (result ≡ word (as_eight narrow nodes.now) f s) × (field_fits narrow f result ≡ true) }
{
    if narrow {
        packed_word(nodes, s, f)
    } else {
        nodes[(s * 8 + f.place()) as usize]
    }
}

fn put_word(nodes: &mut [u64], narrow: bool, s: u64, f: Field, v: u64)
    requires { HasIn narrow nodes.old s × (field_fits narrow f v ≡ true) }
    ensures { as_eight narrow nodes.new ≡ put (as_eight narrow nodes.old) f s v }
{
    if narrow {
        put_packed(nodes, s, f, v);
    } else {
        nodes[(s * 8 + f.place()) as usize] = v;
    }
}

pub fn start_of(nodes: &[u64], narrow: bool, s: u64) -> u64
    requires { HasIn narrow nodes.now s }
    ensures { result ≡ start (as_eight narrow nodes.now) s }
{
    word_of(nodes, narrow, s, Field::Start)
}

pub fn end_of(nodes: &[u64], narrow: bool, s: u64) -> u64
    requires { HasIn narrow nodes.now s }
    ensures { result ≡ stop (as_eight narrow nodes.now) s }
{
    word_of(nodes, narrow, s, Field::End)
}

pub fn value_of(nodes: &[u64], narrow: bool, s: u64) -> u64
    requires { HasIn narrow nodes.now s }
    ensures { result ≡ value (as_eight narrow nodes.now) s }
{
    word_of(nodes, narrow, s, Field::Value)
}

pub fn hull_start_of(nodes: &[u64], narrow: bool, s: u64) -> u64
    requires { HasIn narrow nodes.now s }
    ensures { result ≡ lo (as_eight narrow nodes.now) s }
{
    word_of(nodes, narrow, s, Field::HullStart)
}

pub fn hull_end_of(nodes: &[u64], narrow: bool, s: u64) -> u64
    requires { HasIn narrow nodes.now s }
    ensures { result ≡ hi (as_eight narrow nodes.now) s }
{
    word_of(nodes, narrow, s, Field::HullEnd)
}

// Returns the child link of slot s: the left one if `left_side` is true, else the right one.
pub fn child_of(nodes: &[u64], narrow: bool, s: u64, left_side: bool) -> u64
    requires { HasIn narrow nodes.now s }
    ensures { (result ≡ kid (as_eight narrow nodes.now) left_side s) × (kid_fits narrow result ≡ true) }
{
    word_of(nodes, narrow, s, Field::Child(left_side))
}

pub fn parent_of(nodes: &[u64], narrow: bool, s: u64) -> u64
    requires { HasIn narrow nodes.now s }
    ensures { (result ≡ par (as_eight narrow nodes.now) s) × (up_fits_lem narrow result ≡ true) }
{
    word_of(nodes, narrow, s, Field::Parent)
}

pub fn interval_of(nodes: &[u64], narrow: bool, s: u64) -> Interval
    requires { HasIn narrow nodes.now s }
    ensures { result ≡ interval (as_eight narrow nodes.now) s }
{
    Interval {
        start: start_of(nodes, narrow, s),
        end: end_of(nodes, narrow, s),
    }
}

// Returns the hull of slot s, as the node has it.
pub fn hull_at(nodes: &[u64], narrow: bool, s: u64) -> Interval
    requires { HasIn narrow nodes.now s }
    ensures { result ≡ hull (as_eight narrow nodes.now) s }
{
    Interval {
        start: hull_start_of(nodes, narrow, s),
        end: hull_end_of(nodes, narrow, s),
    }
}

pub fn entry_of(nodes: &[u64], narrow: bool, s: u64) -> Entry
    requires { HasIn narrow nodes.now s }
    ensures { result ≡ entry (as_eight narrow nodes.now) s }
{
    Entry {
        start: start_of(nodes, narrow, s),
        end: end_of(nodes, narrow, s),
        value: value_of(nodes, narrow, s),
    }
}

pub fn put_entry(nodes: &mut [u64], narrow: bool, s: u64, e: Entry)
    requires { HasIn narrow nodes.old s }
    ensures { as_eight narrow nodes.new ≡ put_entry_lem (as_eight narrow nodes.old) s e }
{
    put_word(nodes, narrow, s, Field::Start, e.start);
    put_word(nodes, narrow, s, Field::End, e.end);
    put_word(nodes, narrow, s, Field::Value, e.value);
}

pub fn put_hull(nodes: &mut [u64], narrow: bool, s: u64, h: Interval)
    requires { HasIn narrow nodes.old s }
    ensures { as_eight narrow nodes.new ≡ put_hull_lem (as_eight narrow nodes.old) s h }
{
    put_word(nodes, narrow, s, Field::HullStart, h.start);
    put_word(nodes, narrow, s, Field::HullEnd, h.end);
}

pub fn put_child(nodes: &mut [u64], narrow: bool, s: u64, left_side: bool, v: u64)
    requires { HasIn narrow nodes.old s × (kid_fits narrow v ≡ true) }
    ensures { as_eight narrow nodes.new ≡ put_kid (as_eight narrow nodes.old) left_side s v }
{
    put_word(nodes, narrow, s, Field::Child(left_side), v);
}

pub fn put_parent(nodes: &mut [u64], narrow: bool, s: u64, v: u64)
    requires { HasIn narrow nodes.old s × (up_fits_lem narrow v ≡ true) }
    ensures { as_eight narrow nodes.new ≡ put_par (as_eight narrow nodes.old) s v }
{
    put_word(nodes, narrow, s, Field::Parent, v);
}

// Writes the whole node of slot s.
pub fn put_node(
    nodes: &mut [u64],
    narrow: bool,
    s: u64,
    e: Entry,
    h: Interval,
    left: u64,
    right: u64,
    up: u64,
)
    requires { HasIn narrow nodes.old s × (kid_fits narrow left ≡ true) × (kid_fits narrow right ≡ true) × (up_fits_lem narrow up ≡ true) }
    ensures { as_eight narrow nodes.new ≡ put_node_lem (as_eight narrow nodes.old) s e h left right up }
{
    put_entry(nodes, narrow, s, e);
    put_hull(nodes, narrow, s, h);
    put_child(nodes, narrow, s, true, left);
    put_child(nodes, narrow, s, false, right);
    put_parent(nodes, narrow, s, up);
}

// Swaps the values and the intervals of two nodes. The hulls belong to the places in the
// tree and stay unchanged.
pub fn swap_with(nodes: &mut [u64], narrow: bool, i: u64, j: u64)
    requires { HasIn narrow nodes.old i × HasIn narrow nodes.old j }
    ensures { as_eight narrow nodes.new ≡ swap (as_eight narrow nodes.old) i j }
{
    let a = entry_of(nodes, narrow, i);
    let b = entry_of(nodes, narrow, j);
    put_entry(nodes, narrow, i, b);
    put_entry(nodes, narrow, j, a);
}

// Returns the interval d, extended by the hull of the slot that the link leads to, if it leads to
// one.
fn extend_by(nodes: &[u64], narrow: bool, count: u64, word: u64, d: Interval) -> Interval
    requires { HoldsIn narrow nodes.now count }
    ensures { result ≡ joined count (as_eight narrow nodes.now) word d }
{
    let Some(k) = slot_at(word, count) else {
        return d;
    };
    d.extend(hull_at(nodes, narrow, k))
}

// Returns the hull that the node's own interval and its children's hulls make.
pub fn subtree_interval(nodes: &[u64], narrow: bool, count: u64, index: u64) -> Interval
    requires { HoldsIn narrow nodes.now count × (index < count) }
    ensures { result ≡ hull_of count (as_eight narrow nodes.now) index }
{
    let own = interval_of(nodes, narrow, index);
    let left = extend_by(
        nodes,
        narrow,
        count,
        child_of(nodes, narrow, index, true),
        own,
    );
    extend_by(
        nodes,
        narrow,
        count,
        child_of(nodes, narrow, index, false),
        left,
    )
}

// Computes the hull of slot `index` anew and writes it. Returns whether either end changed.
pub fn update_subtree_interval(nodes: &mut [u64], narrow: bool, count: u64, index: u64) -> bool
    requires { HoldsIn narrow nodes.old count × (index < count) }
    ensures { (result ≡ altered count (as_eight narrow nodes.old) index) × (as_eight narrow nodes.new ≡ fix count (as_eight narrow nodes.old) index) }
{
    let old = hull_at(nodes, narrow, index);
    let h = subtree_interval(nodes, narrow, count, index);
    put_hull(nodes, narrow, index, h);
    old != h
}
