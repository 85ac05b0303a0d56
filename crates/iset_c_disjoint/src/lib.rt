// Maps in which no two ranges overlap, for hosts in C and Rust: the public calls of crate disjoint
// over lent slices and numbers, as include/iset_disjoint.h declares them. Answers and refusals have
// the form of crate iset_c's. One call is an exception to the rule that a refusal leaves `answer`
// alone: an insertion that is refused with Overlap writes its answer too, since it names a slot.
//
// The exports are in exports.rt. A function whose name ends in `_in` does the work of an export for
// nodes of either layout: `narrow` says that a node has six words and not eight.
#![tactic(auto, using(iset_c::proofs::Laws::short_exit, crate::proofs::Laws::short_placed))]

pub mod answer;
pub mod exports;
pub mod open;

ghost use Rattle.std.specs.Prelude.{◌≡◌, [], ◌∷◌};
ghost use Rattle.words.specs.Layouts.{as_eight};
ghost use Rattle.iset.specs.Insert.{entry_of};
ghost use Rattle.iset.specs.Maps.{map_at, map_of};
ghost use Rattle.disjoint.specs.Check.{disjoint_rule_lem};
ghost use Rattle.iset_c.specs.Replies.{exit};
ghost use Rattle.iset_c_disjoint.specs.Replies.{point_exit, place_exit, take_exit};

use crate::answer::{put_placed, put_pointed};
use disjoint::DisjointMap;
use iset::{Map, number_of};
use iset_c::SHORT_ANSWER;
use iset_c::answer::answered;

// The check of the store, and that no two entries intersect. It returns its number and writes no
// answer.
pub fn disjoint_check_in(count: u64, root: u64, nodes: &[u64], narrow: bool, colours: &[u8]) -> u64
    ensures { result ≡ disjoint_rule_lem (map_of count root) (as_eight narrow nodes.now) colours.now }
{
    let map = Map {
        count,
        root,
        version: 0,
    };
    let disjoint = DisjointMap { map };
    number_of(disjoint.check_in(nodes, narrow, colours))
}

// Finds the entry that holds an address. Answer: its slot, or U if there is none; how many nodes
// were entered.
pub fn disjoint_point_in(
    count: u64,
    root: u64,
    nodes: &[u64],
    narrow: bool,
    colours: &[u8],
    address: u64,
    answer: &mut [u64],
) -> u64
    ensures { exit result answer.new []
        ≡ point_exit answer.old (map_of count root) (as_eight narrow nodes.now) colours.now address }
{
    if answer.len() < 2 {
        return SHORT_ANSWER;
    }
    let map = Map {
        count,
        root,
        version: 0,
    };
    let disjoint = DisjointMap { map };
    put_pointed(disjoint.point_in(nodes, narrow, colours, address), answer)
}

// Adds an entry in slot `count`, if no stored entry intersects it. Answer: count, root, the entry's
// slot, how many hulls changed, version. If an entry intersects it, the answer is written too, with
// the map as given: its slot is then that of the first such entry in tree order.
pub fn disjoint_insert_in(
    count: u64,
    root: u64,
    version: u32,
    nodes: &mut [u64],
    narrow: bool,
    colours: &mut [u8],
    start: u64,
    end: u64,
    value: u64,
    answer: &mut [u64],
) -> u64
    ensures { exit result answer.new (as_eight narrow nodes.new ∷ colours.new ∷ [])
        ≡ place_exit answer.old (map_at count root version) (as_eight narrow nodes.old) colours.old (entry_of start end value) }
{
    if answer.len() < 5 {
        return SHORT_ANSWER;
    }
    let map = Map {
        count,
        root,
        version,
    };
    let disjoint = DisjointMap { map };
    put_placed(
        map,
        disjoint.insert_in(nodes, narrow, colours, start, end, value),
        answer,
    )
}

// Removes the entry of a slot. Answer: that of iset_remove.
pub fn disjoint_remove_in(
    count: u64,
    root: u64,
    version: u32,
    nodes: &mut [u64],
    narrow: bool,
    colours: &mut [u8],
    slot: u64,
    answer: &mut [u64],
) -> u64
    ensures { exit result answer.new (as_eight narrow nodes.new ∷ colours.new ∷ [])
        ≡ take_exit answer.old (map_at count root version) (as_eight narrow nodes.old) colours.old slot }
{
    if answer.len() < 11 {
        return SHORT_ANSWER;
    }
    let map = Map {
        count,
        root,
        version,
    };
    let disjoint = DisjointMap { map };
    answered(disjoint.remove_in(nodes, narrow, colours, slot), answer)
}
