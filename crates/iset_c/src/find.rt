// The fast lookup finds all hits at once. It tests both ends of a node's hull before it enters the
// node. A slot's hull is the least range that holds all entries of its subtree.
ghost use Rattle.std.specs.Prelude.{◌≡◌, true, [], ◌∷◌};
ghost use Rattle.words.specs.Layouts.{as_eight};
ghost use Rattle.iset.specs.Maps.{map_of};
ghost use Rattle.iset_c.specs.Replies.{exit, find_all_exit};
ghost use Rattle.iset_c.specs.Ranges.{range_of, exact_of, kinds};

use crate::answer::answered;
use crate::range::known_range;
use crate::{BAD_BOUND, SHORT_ANSWER};
use iset::{Interval, Map, Query};

// Writes the slots of the entries that intersect a range, in tree order, as many as the output has
// places for. Answer: how many hits there are, how many nodes were entered.
pub fn find_all_in(
    count: u64,
    root: u64,
    nodes: &[u64],
    narrow: bool,
    colours: &[u8],
    lo_kind: u64,
    lo: u64,
    hi_kind: u64,
    hi: u64,
    out: &mut [u64],
    answer: &mut [u64],
) -> u64
    ensures { exit result answer.new (out.new ∷ [])
        ≡ find_all_exit (kinds lo_kind hi_kind) answer.old (map_of count root) (as_eight narrow nodes.now) colours.now (range_of lo_kind lo hi_kind hi) out.old }
{
    if answer.len() < 2 {
        return SHORT_ANSWER;
    }
    let Some(query) = known_range(lo_kind, lo, hi_kind, hi) else {
        return BAD_BOUND;
    };
    let map = Map {
        count,
        root,
        version: 0,
    };
    answered(map.find_all_in(nodes, narrow, colours, query, out), answer)
}

// Writes the slots of the entries that are equal to an interval, in the same way. Answer: as for
// iset_find_all.
pub fn find_all_exact_in(
    count: u64,
    root: u64,
    nodes: &[u64],
    narrow: bool,
    colours: &[u8],
    start: u64,
    end: u64,
    out: &mut [u64],
    answer: &mut [u64],
) -> u64
    ensures { exit result answer.new (out.new ∷ [])
        ≡ find_all_exit true answer.old (map_of count root) (as_eight narrow nodes.now) colours.now (exact_of start end) out.old }
{
    if answer.len() < 2 {
        return SHORT_ANSWER;
    }
    let map = Map {
        count,
        root,
        version: 0,
    };
    let exact = Query::Exact(Interval { start, end });
    answered(map.find_all_in(nodes, narrow, colours, exact, out), answer)
}
