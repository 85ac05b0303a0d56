// The map for hosts in C and Rust: every public call of crate iset over lent slices and numbers, as
// include/iset.h declares them. Over extern "C" a slice is two scalars, its pointer and its length.
// A map, a range and a cursor are the numbers that they hold.
//
// The exports that are lent node words are in exports.rt; iset_slot_after is here, iset_fresh in
// lookup.rt. An export returns the refusal's number, or 0 if there is none. It writes the answer's
// numbers to the front of the slice `answer`. It has two refusals of its own, which come before
// those of the call. The first is ShortAnswer, if that slice is too short for the numbers. The
// second is BadBound, if a bound's kind is not 0, 1 or 2. If anything is refused, nothing lent has
// changed, the answer slice included.
//
// A function whose name ends in `_in` does the work of an export for nodes of either layout:
// `narrow` says that a node has six words and not eight. Crate iset_c_narrow has the exports for
// six words.
#![tactic(auto, using(crate::proofs::Laws::short_exit, crate::proofs::Laws::unbounded_exit))]

pub mod answer;
pub mod call;
pub mod exports;
pub mod find;
pub mod lookup;
pub mod range;
pub mod save;
pub mod scan;
pub mod ticket;
pub mod tidy;
pub mod unload;

ghost use Rattle.std.specs.Prelude.{◌≡◌, [], ◌∷◌};
ghost use Rattle.words.specs.Layouts.{as_eight};
ghost use Rattle.iset.specs.Check.{check_rule};
ghost use Rattle.iset.specs.Remove.{slot_after_lem};
ghost use Rattle.iset.specs.Insert.{entry_of};
ghost use Rattle.iset.specs.Maps.{map_at, map_of};
ghost use Rattle.words.specs.Ix.{U};
ghost use Rattle.iset_c.specs.Replies.{exit, pairs_of, build_exit, remove_exit, insert_exit};

use crate::answer::answered;
use iset::remove::Removed;
use iset::{Map, Pair, Pairs, number_of};
use words::ix::U;

// The exports' own refusals. Their numbers leave room for refusals that the map may get after
// those of crate words.
pub const SHORT_ANSWER: u64 = 101;

pub const BAD_BOUND: u64 = 102;

// The store check. It returns its number and writes no answer.
pub fn check_in(count: u64, root: u64, nodes: &[u64], narrow: bool, colours: &[u8]) -> u64
    ensures { result ≡ check_rule (map_of count root) (as_eight narrow nodes.now) colours.now }
{
    let map = Map {
        count,
        root,
        version: 0,
    };
    number_of(map.check_in(nodes, narrow, colours))
}

// Builds the map of a list of triples start, end, value, in the place of a map of the given
// version. Answer: count, root, version.
pub fn build_in(
    version: u32,
    nodes: &mut [u64],
    narrow: bool,
    colours: &mut [u8],
    list: &[u64],
    answer: &mut [u64],
) -> u64
    ensures { exit result answer.new (as_eight narrow nodes.new ∷ colours.new ∷ [])
        ≡ build_exit answer.old (map_at 0 U version) (as_eight narrow nodes.old) colours.old list.now }
{
    if answer.len() < 3 {
        return SHORT_ANSWER;
    }
    let old = Map {
        count: 0,
        root: U,
        version,
    };
    answered(old.build_in(nodes, narrow, colours, list), answer)
}

// Removes the entry of a slot. Answer: value, count, root; the entries that moved, as three pairs
// of an old slot and a new slot; how many hulls changed; version. A slot's hull is the least range
// that holds all entries of its subtree.
pub fn remove_in(
    count: u64,
    root: u64,
    version: u32,
    nodes: &mut [u64],
    narrow: bool,
    colours: &mut [u8],
    slot: u64,
    answer: &mut [u64],
) -> u64
    ensures { exit result answer.new (as_eight narrow nodes.new ∷ colours.new ∷ [])
        ≡ remove_exit answer.old (map_at count root version) (as_eight narrow nodes.old) colours.old slot }
{
    if answer.len() < 11 {
        return SHORT_ANSWER;
    }
    let map = Map {
        count,
        root,
        version,
    };
    answered(map.remove_in(nodes, narrow, colours, slot), answer)
}

// Takes the answer of a removal of slot `removed`. Returns the slot of the entry that was in slot
// `kept` before it, or U if `kept` is `removed`.
pub fn iset_slot_after(answer: &[u64; 11], removed: u64, kept: u64) -> u64
    ensures { result ≡ slot_after_lem (pairs_of answer.now) removed kept }
{
    let done = Removed {
        map: Map {
            count: answer[1],
            root: answer[2],
            version: 0,
        },
        value: answer[0],
        pairs: Pairs {
            first: Pair {
                old: answer[3],
                new: answer[4],
            },
            second: Pair {
                old: answer[5],
                new: answer[6],
            },
            third: Pair {
                old: answer[7],
                new: answer[8],
            },
        },
        reach: answer[9],
    };
    done.slot_after(removed, kept)
}

// Adds an entry in slot `count`. No other entry changes slot. Answer: count, root, the entry's
// slot, how many hulls changed, version.
pub fn insert_in(
    count: u64,
    root: u64,
    version: u32,
    nodes: &mut [u64],
    narrow: bool,
    colours: &mut [u8],
    start: u64,
    end: u64,
    value: u64,
    answer: &mut [u64],
) -> u64
    ensures { exit result answer.new (as_eight narrow nodes.new ∷ colours.new ∷ [])
        ≡ insert_exit answer.old (map_at count root version) (as_eight narrow nodes.old) colours.old (entry_of start end value) }
{
    if answer.len() < 5 {
        return SHORT_ANSWER;
    }
    let map = Map {
        count,
        root,
        version,
    };
    answered(
        map.insert_in(nodes, narrow, colours, start, end, value),
        answer,
    )
}
