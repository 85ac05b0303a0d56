// Looking up in an opened store, one that passed the check and that only these calls have written
// since. A cursor, a lookup's place between two calls, is three numbers: slot, levels and bits. A
// bound is two numbers: its kind and its value.
ghost use Rattle.std.specs.Prelude.{◌≡◌, true, [], ◌∷◌};
ghost use Rattle.words.specs.Layouts.{as_eight};
ghost use Rattle.iset.specs.Maps.{map_of};
ghost use Rattle.iset_c.specs.Replies.{cursor_of, exit};
ghost use Rattle.iset_c.specs.Ranges.{range_of, interval_of_lem, exact_of, kinds};
ghost use Rattle.iset_c_open.specs.Replies.{open_start_exit, open_step_exit, open_drain_exit};

use crate::call::{drain, step};
use iset::{Cursor, Interval, Map, Query};
use iset_c::answer::answered;
use iset_c::range::known_range;
use iset_c::{BAD_BOUND, SHORT_ANSWER};

// The fresh cursor of an exact lookup. Answer: slot, levels, bits.
pub fn open_fresh_exact_in(
    count: u64,
    root: u64,
    nodes: &[u64],
    narrow: bool,
    colours: &[u8],
    start: u64,
    end: u64,
    answer: &mut [u64],
) -> u64
    ensures { exit result answer.new []
        ≡ open_start_exit answer.old (map_of count root) (as_eight narrow nodes.now) colours.now (interval_of_lem start end) }
{
    if answer.len() < 3 {
        return SHORT_ANSWER;
    }
    let map = Map {
        count,
        root,
        version: 0,
    };
    let exact = Interval { start, end };
    answered(
        map.open_fresh_exact_in(nodes, narrow, colours, exact),
        answer,
    )
}

// Finds the next entry that intersects a range. Answer: its slot, or U at the end; the next
// cursor's slot, levels and bits; how many nodes were entered.
pub fn open_step_in(
    count: u64,
    root: u64,
    nodes: &[u64],
    narrow: bool,
    colours: &[u8],
    lo_kind: u64,
    lo: u64,
    hi_kind: u64,
    hi: u64,
    slot: u64,
    levels: u64,
    bits: u64,
    answer: &mut [u64],
) -> u64
    ensures { exit result answer.new []
        ≡ open_step_exit (kinds lo_kind hi_kind) answer.old (map_of count root) (as_eight narrow nodes.now) colours.now (range_of lo_kind lo hi_kind hi) (cursor_of slot levels bits) }
{
    if answer.len() < 5 {
        return SHORT_ANSWER;
    }
    let Some(query) = known_range(lo_kind, lo, hi_kind, hi) else {
        return BAD_BOUND;
    };
    step(
        Map {
            count,
            root,
            version: 0,
        },
        nodes,
        narrow,
        colours,
        query,
        Cursor { slot, levels, bits },
        answer,
    )
}

// Finds the next entry that is equal to an interval. Answer: as for iset_open_step.
pub fn open_step_exact_in(
    count: u64,
    root: u64,
    nodes: &[u64],
    narrow: bool,
    colours: &[u8],
    start: u64,
    end: u64,
    slot: u64,
    levels: u64,
    bits: u64,
    answer: &mut [u64],
) -> u64
    ensures { exit result answer.new []
        ≡ open_step_exit true answer.old (map_of count root) (as_eight narrow nodes.now) colours.now (exact_of start end) (cursor_of slot levels bits) }
{
    if answer.len() < 5 {
        return SHORT_ANSWER;
    }
    step(
        Map {
            count,
            root,
            version: 0,
        },
        nodes,
        narrow,
        colours,
        Query::Exact(Interval { start, end }),
        Cursor { slot, levels, bits },
        answer,
    )
}

// Steps from a cursor until the end, or until `limit` slots are in `out`. A limit of 0 means as
// many as fit. Answer: how many slots were written; how many nodes were entered; the next cursor's
// slot, levels and bits.
pub fn open_drain_in(
    count: u64,
    root: u64,
    nodes: &[u64],
    narrow: bool,
    colours: &[u8],
    lo_kind: u64,
    lo: u64,
    hi_kind: u64,
    hi: u64,
    slot: u64,
    levels: u64,
    bits: u64,
    limit: u64,
    out: &mut [u64],
    answer: &mut [u64],
) -> u64
    ensures { exit result answer.new (out.new ∷ [])
        ≡ open_drain_exit (kinds lo_kind hi_kind) answer.old (map_of count root) (as_eight narrow nodes.now) colours.now (range_of lo_kind lo hi_kind hi) (cursor_of slot levels bits) limit out.old }
{
    if answer.len() < 5 {
        return SHORT_ANSWER;
    }
    let Some(query) = known_range(lo_kind, lo, hi_kind, hi) else {
        return BAD_BOUND;
    };
    let map = Map {
        count,
        root,
        version: 0,
    };
    let from = Cursor { slot, levels, bits };
    drain(map, nodes, narrow, colours, query, from, limit, out, answer)
}

// The drain of an exact lookup. Answer: as for iset_open_drain.
pub fn open_drain_exact_in(
    count: u64,
    root: u64,
    nodes: &[u64],
    narrow: bool,
    colours: &[u8],
    start: u64,
    end: u64,
    slot: u64,
    levels: u64,
    bits: u64,
    limit: u64,
    out: &mut [u64],
    answer: &mut [u64],
) -> u64
    ensures { exit result answer.new (out.new ∷ [])
        ≡ open_drain_exit true answer.old (map_of count root) (as_eight narrow nodes.now) colours.now (exact_of start end) (cursor_of slot levels bits) limit out.old }
{
    if answer.len() < 5 {
        return SHORT_ANSWER;
    }
    drain(
        Map {
            count,
            root,
            version: 0,
        },
        nodes,
        narrow,
        colours,
        Query::Exact(Interval { start, end }),
        Cursor { slot, levels, bits },
        limit,
        out,
        answer,
    )
}
