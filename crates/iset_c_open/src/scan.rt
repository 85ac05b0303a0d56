// The plain lookup in an opened store (see lookup.rt). It visits every entry in tree order and
// tests each of them, without pruning.
ghost use Rattle.std.specs.Prelude.{◌≡◌, true, [], ◌∷◌};
ghost use Rattle.words.specs.Layouts.{as_eight};
ghost use Rattle.iset.specs.Maps.{map_of};
ghost use Rattle.iset_c.specs.Replies.{exit};
ghost use Rattle.iset_c.specs.Ranges.{range_of, exact_of, kinds};
ghost use Rattle.iset_c_open.specs.Replies.{open_plain_exit};

use iset::{Interval, Map, Query};
use iset_c::answer::answered;
use iset_c::range::known_range;
use iset_c::{BAD_BOUND, SHORT_ANSWER};

// Writes the slots of all entries that intersect a range. Answer: how many slots were written, how
// many entries were visited.
pub fn open_plain_in(
    count: u64,
    root: u64,
    nodes: &[u64],
    narrow: bool,
    colours: &[u8],
    lo_kind: u64,
    lo: u64,
    hi_kind: u64,
    hi: u64,
    out: &mut [u64],
    answer: &mut [u64],
) -> u64
    ensures { exit result answer.new (out.new ∷ [])
        ≡ open_plain_exit (kinds lo_kind hi_kind) answer.old (map_of count root) (as_eight narrow nodes.now) colours.now (range_of lo_kind lo hi_kind hi) out.old }
{
    if answer.len() < 2 {
        return SHORT_ANSWER;
    }
    let Some(query) = known_range(lo_kind, lo, hi_kind, hi) else {
        return BAD_BOUND;
    };
    let map = Map {
        count,
        root,
        version: 0,
    };
    answered(
        map.open_plain_in(nodes, narrow, colours, query, out),
        answer,
    )
}

// Writes the slots of all entries that are equal to an interval. Answer: as for iset_open_plain.
pub fn open_plain_exact_in(
    count: u64,
    root: u64,
    nodes: &[u64],
    narrow: bool,
    colours: &[u8],
    start: u64,
    end: u64,
    out: &mut [u64],
    answer: &mut [u64],
) -> u64
    ensures { exit result answer.new (out.new ∷ [])
        ≡ open_plain_exit true answer.old (map_of count root) (as_eight narrow nodes.now) colours.now (exact_of start end) out.old }
{
    if answer.len() < 2 {
        return SHORT_ANSWER;
    }
    let map = Map {
        count,
        root,
        version: 0,
    };
    let exact = Query::Exact(Interval { start, end });
    answered(
        map.open_plain_in(nodes, narrow, colours, exact, out),
        answer,
    )
}
