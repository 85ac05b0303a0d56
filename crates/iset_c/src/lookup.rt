// Looking up: fresh cursors, steps and drains. A cursor, a lookup's place between two calls, is
// three numbers: slot, levels and bits. A bound is two numbers: its kind and its value.
ghost use Rattle.std.specs.Prelude.{◌≡◌, true, [], ◌∷◌};
ghost use Rattle.words.specs.Layouts.{as_eight};
ghost use Rattle.iter.specs.Cursors.{fresh};
ghost use Rattle.iset.specs.Maps.{map_of};
ghost use Rattle.iset_c.specs.Replies.{cursor_of, exit, fresh_reply, answer_exit, start_exit, step_exit, drain_exit};
ghost use Rattle.iset_c.specs.Ranges.{range_of, interval_of_lem, exact_of, kinds};

use crate::answer::{Returned, answered};
use crate::call::{drain, step};
use crate::range::known_range;
use crate::{BAD_BOUND, SHORT_ANSWER};
use iset::{Cursor, Interval, Map, Query};

// The fresh cursor of an overlap lookup. Answer: slot, levels, bits. The calls that take the cursor
// test the map.
pub fn iset_fresh(count: u64, root: u64, answer: &mut [u64]) -> u64
    ensures { exit result answer.new []
        ≡ answer_exit true answer.old (fresh_reply (fresh root)) }
{
    if answer.len() < 3 {
        return SHORT_ANSWER;
    }
    let map = Map {
        count,
        root,
        version: 0,
    };
    map.fresh().put(answer);
    0
}

// The fresh cursor of an exact lookup. Answer: slot, levels, bits.
pub fn fresh_exact_in(
    count: u64,
    root: u64,
    nodes: &[u64],
    narrow: bool,
    colours: &[u8],
    start: u64,
    end: u64,
    answer: &mut [u64],
) -> u64
    ensures { exit result answer.new []
        ≡ start_exit answer.old (map_of count root) (as_eight narrow nodes.now) colours.now (interval_of_lem start end) }
{
    if answer.len() < 3 {
        return SHORT_ANSWER;
    }
    let map = Map {
        count,
        root,
        version: 0,
    };
    let exact = Interval { start, end };
    answered(map.fresh_exact_in(nodes, narrow, colours, exact), answer)
}

// Finds the next entry that intersects a range. Answer: its slot, or U at the end; the next
// cursor's slot, levels and bits; how many nodes were entered.
pub fn step_in(
    count: u64,
    root: u64,
    nodes: &[u64],
    narrow: bool,
    colours: &[u8],
    lo_kind: u64,
    lo: u64,
    hi_kind: u64,
    hi: u64,
    slot: u64,
    levels: u64,
    bits: u64,
    answer: &mut [u64],
) -> u64
    ensures { exit result answer.new []
        ≡ step_exit (kinds lo_kind hi_kind) answer.old (map_of count root) (as_eight narrow nodes.now) colours.now (range_of lo_kind lo hi_kind hi) (cursor_of slot levels bits) }
{
    if answer.len() < 5 {
        return SHORT_ANSWER;
    }
    let Some(query) = known_range(lo_kind, lo, hi_kind, hi) else {
        return BAD_BOUND;
    };
    step(
        Map {
            count,
            root,
            version: 0,
        },
        nodes,
        narrow,
        colours,
        query,
        Cursor { slot, levels, bits },
        answer,
    )
}

// Finds the next entry that is equal to an interval. Answer: as for iset_step.
pub fn step_exact_in(
    count: u64,
    root: u64,
    nodes: &[u64],
    narrow: bool,
    colours: &[u8],
    start: u64,
    end: u64,
    slot: u64,
    levels: u64,
    bits: u64,
    answer: &mut [u64],
) -> u64
    ensures { exit result answer.new []
        ≡ step_exit true answer.old (map_of count root) (as_eight narrow nodes.now) colours.now (exact_of start end) (cursor_of slot levels bits) }
{
    if answer.len() < 5 {
        return SHORT_ANSWER;
    }
    step(
        Map {
            count,
            root,
            version: 0,
        },
        nodes,
        narrow,
        colours,
        Query::Exact(Interval { start, end }),
        Cursor { slot, levels, bits },
        answer,
    )
}

// Steps from a cursor until the end, or until `limit` slots are in `out`. A limit of 0 means as
// many as fit. Answer: how many slots were written; how many nodes were entered; the next cursor's
// slot, levels and bits.
pub fn drain_in(
    count: u64,
    root: u64,
    nodes: &[u64],
    narrow: bool,
    colours: &[u8],
    lo_kind: u64,
    lo: u64,
    hi_kind: u64,
    hi: u64,
    slot: u64,
    levels: u64,
    bits: u64,
    limit: u64,
    out: &mut [u64],
    answer: &mut [u64],
) -> u64
    ensures { exit result answer.new (out.new ∷ [])
        ≡ drain_exit (kinds lo_kind hi_kind) answer.old (map_of count root) (as_eight narrow nodes.now) colours.now (range_of lo_kind lo hi_kind hi) (cursor_of slot levels bits) limit out.old }
{
    if answer.len() < 5 {
        return SHORT_ANSWER;
    }
    let Some(query) = known_range(lo_kind, lo, hi_kind, hi) else {
        return BAD_BOUND;
    };
    let map = Map {
        count,
        root,
        version: 0,
    };
    let from = Cursor { slot, levels, bits };
    drain(map, nodes, narrow, colours, query, from, limit, out, answer)
}

// The drain of an exact lookup. Answer: as for iset_drain.
pub fn drain_exact_in(
    count: u64,
    root: u64,
    nodes: &[u64],
    narrow: bool,
    colours: &[u8],
    start: u64,
    end: u64,
    slot: u64,
    levels: u64,
    bits: u64,
    limit: u64,
    out: &mut [u64],
    answer: &mut [u64],
) -> u64
    ensures { exit result answer.new (out.new ∷ [])
        ≡ drain_exit true answer.old (map_of count root) (as_eight narrow nodes.now) colours.now (exact_of start end) (cursor_of slot levels bits) limit out.old }
{
    if answer.len() < 5 {
        return SHORT_ANSWER;
    }
    drain(
        Map {
            count,
            root,
            version: 0,
        },
        nodes,
        narrow,
        colours,
        Query::Exact(Interval { start, end }),
        Cursor { slot, levels, bits },
        limit,
        out,
        answer,
    )
}
