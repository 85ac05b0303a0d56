// The map for hosts in C and Rust that check a store once and then keep it to themselves. These are
// the calls of crate iset_c without the store check, as include/iset_open.h declares them. Answers,
// refusals and their order are those of crate iset_c, except that Broken is never returned.
//
// The exports are in exports.rt. A function whose name ends in `_in` does the work of an export for
// nodes of either layout: `narrow` says that a node has six words and not eight.
#![tactic(auto, using(iset_c::proofs::Laws::short_exit, iset_c::proofs::Laws::unbounded_exit))]

pub mod call;
pub mod exports;
pub mod find;
pub mod lookup;
pub mod save;
pub mod scan;
pub mod ticket;
pub mod tidy;
pub mod unload;

ghost use Rattle.std.specs.Prelude.{◌≡◌, [], ◌∷◌};
ghost use Rattle.words.specs.Layouts.{as_eight};
ghost use Rattle.iset.specs.Insert.{entry_of};
ghost use Rattle.iset.specs.Maps.{map_at};
ghost use Rattle.iset_c.specs.Replies.{exit};
ghost use Rattle.iset_c_open.specs.Replies.{open_remove_exit, open_insert_exit};

use iset::Map;
use iset_c::SHORT_ANSWER;
use iset_c::answer::answered;

// Removes the entry of a slot. Answer: value, count, root; the entries that moved, as three pairs
// of an old slot and a new slot; how many hulls changed; version. A slot's hull is the least range
// that holds all entries of its subtree.
pub fn open_remove_in(
    count: u64,
    root: u64,
    version: u32,
    nodes: &mut [u64],
    narrow: bool,
    colours: &mut [u8],
    slot: u64,
    answer: &mut [u64],
) -> u64
    ensures { exit result answer.new (as_eight narrow nodes.new ∷ colours.new ∷ [])
        ≡ open_remove_exit answer.old (map_at count root version) (as_eight narrow nodes.old) colours.old slot }
{
    if answer.len() < 11 {
        return SHORT_ANSWER;
    }
    let map = Map {
        count,
        root,
        version,
    };
    answered(map.open_remove_in(nodes, narrow, colours, slot), answer)
}

// Adds an entry in slot `count`. No other entry changes slot. Answer: count, root, the entry's
// slot, how many hulls changed, version.
pub fn open_insert_in(
    count: u64,
    root: u64,
    version: u32,
    nodes: &mut [u64],
    narrow: bool,
    colours: &mut [u8],
    start: u64,
    end: u64,
    value: u64,
    answer: &mut [u64],
) -> u64
    ensures { exit result answer.new (as_eight narrow nodes.new ∷ colours.new ∷ [])
        ≡ open_insert_exit answer.old (map_at count root version) (as_eight narrow nodes.old) colours.old (entry_of start end value) }
{
    if answer.len() < 5 {
        return SHORT_ANSWER;
    }
    let map = Map {
        count,
        root,
        version,
    };
    answered(
        map.open_insert_in(nodes, narrow, colours, start, end, value),
        answer,
    )
}
