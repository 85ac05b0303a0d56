// The calls without the check, for hosts that check a store once and then keep it to themselves.
// Answers, refusals and their order are those of the calls that run the check, except that Broken
// and NotDisjoint are never returned. What it takes to use them is in include/iset_disjoint.h.
ghost use Rattle.std.specs.Prelude.{◌≡◌, [], ◌∷◌};
ghost use Rattle.words.specs.Layouts.{as_eight};
ghost use Rattle.iset.specs.Insert.{entry_of};
ghost use Rattle.iset.specs.Maps.{map_at, map_of};
ghost use Rattle.iset_c.specs.Replies.{exit};
ghost use Rattle.iset_c_disjoint.specs.Replies.{open_point_exit, open_place_exit, open_take_exit};

use crate::answer::{put_placed, put_pointed};
use disjoint::DisjointMap;
use iset::Map;
use iset_c::SHORT_ANSWER;
use iset_c::answer::answered;

// iset_disjoint_point for an opened store.
pub fn open_disjoint_point_in(
    count: u64,
    root: u64,
    nodes: &[u64],
    narrow: bool,
    colours: &[u8],
    address: u64,
    answer: &mut [u64],
) -> u64
    ensures { exit result answer.new []
        ≡ open_point_exit answer.old (map_of count root) (as_eight narrow nodes.now) colours.now address }
{
    if answer.len() < 2 {
        return SHORT_ANSWER;
    }
    let map = Map {
        count,
        root,
        version: 0,
    };
    let disjoint = DisjointMap { map };
    put_pointed(
        disjoint.open_point_in(nodes, narrow, colours, address),
        answer,
    )
}

// iset_disjoint_insert for an opened store.
pub fn open_disjoint_insert_in(
    count: u64,
    root: u64,
    version: u32,
    nodes: &mut [u64],
    narrow: bool,
    colours: &mut [u8],
    start: u64,
    end: u64,
    value: u64,
    answer: &mut [u64],
) -> u64
    ensures { exit result answer.new (as_eight narrow nodes.new ∷ colours.new ∷ [])
        ≡ open_place_exit answer.old (map_at count root version) (as_eight narrow nodes.old) colours.old (entry_of start end value) }
{
    if answer.len() < 5 {
        return SHORT_ANSWER;
    }
    let map = Map {
        count,
        root,
        version,
    };
    let disjoint = DisjointMap { map };
    put_placed(
        map,
        disjoint.open_insert_in(nodes, narrow, colours, start, end, value),
        answer,
    )
}

// iset_disjoint_remove for an opened store.
pub fn open_disjoint_remove_in(
    count: u64,
    root: u64,
    version: u32,
    nodes: &mut [u64],
    narrow: bool,
    colours: &mut [u8],
    slot: u64,
    answer: &mut [u64],
) -> u64
    ensures { exit result answer.new (as_eight narrow nodes.new ∷ colours.new ∷ [])
        ≡ open_take_exit answer.old (map_at count root version) (as_eight narrow nodes.old) colours.old slot }
{
    if answer.len() < 11 {
        return SHORT_ANSWER;
    }
    let map = Map {
        count,
        root,
        version,
    };
    let disjoint = DisjointMap { map };
    answered(
        disjoint.open_remove_in(nodes, narrow, colours, slot),
        answer,
    )
}
