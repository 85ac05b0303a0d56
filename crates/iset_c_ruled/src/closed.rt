// Lookups and unloadings by a rule. Each call runs the store check.
ghost use Rattle.std.specs.Prelude.{◌≡◌, [], ◌∷◌};
ghost use Rattle.words.specs.Layouts.{as_eight};
ghost use Rattle.iset.specs.Maps.{map_at, map_of};
ghost use Rattle.iset_c.specs.Replies.{cursor_of, exit, step_exit, drain_exit, plain_exit, find_all_exit, unload_exit};
ghost use Rattle.iset_c.specs.Ranges.{kinds, span_of};
ghost use Rattle.iset_c_ruled.specs.Ranges.{ruled_of};

use crate::ruled;
use iset::{Cursor, Map};
use iset_c::answer::answered;
use iset_c::call::{drain, step, unload};
use iset_c::range::known_span;
use iset_c::{BAD_BOUND, SHORT_ANSWER};

// Finds the next entry that intersects a range by a rule. Answer: as for iset_step.
pub fn step_ruled_in(
    count: u64,
    root: u64,
    nodes: &[u64],
    narrow: bool,
    colours: &[u8],
    rule: u64,
    lo_kind: u64,
    lo: u64,
    hi_kind: u64,
    hi: u64,
    slot: u64,
    levels: u64,
    bits: u64,
    answer: &mut [u64],
) -> u64
    ensures { exit result answer.new []
        ≡ step_exit (kinds lo_kind hi_kind) answer.old (map_of count root) (as_eight narrow nodes.now) colours.now (ruled_of rule lo_kind lo hi_kind hi) (cursor_of slot levels bits) }
{
    if answer.len() < 5 {
        return SHORT_ANSWER;
    }
    let Some(query) = ruled(rule, lo_kind, lo, hi_kind, hi) else {
        return BAD_BOUND;
    };
    let map = Map {
        count,
        root,
        version: 0,
    };
    let cursor = Cursor { slot, levels, bits };
    step(map, nodes, narrow, colours, query, cursor, answer)
}

// Steps from a cursor until the end or the limit, by a rule. Answer: as for iset_drain.
pub fn drain_ruled_in(
    count: u64,
    root: u64,
    nodes: &[u64],
    narrow: bool,
    colours: &[u8],
    rule: u64,
    lo_kind: u64,
    lo: u64,
    hi_kind: u64,
    hi: u64,
    slot: u64,
    levels: u64,
    bits: u64,
    limit: u64,
    out: &mut [u64],
    answer: &mut [u64],
) -> u64
    ensures { exit result answer.new (out.new ∷ [])
        ≡ drain_exit (kinds lo_kind hi_kind) answer.old (map_of count root) (as_eight narrow nodes.now) colours.now (ruled_of rule lo_kind lo hi_kind hi) (cursor_of slot levels bits) limit out.old }
{
    if answer.len() < 5 {
        return SHORT_ANSWER;
    }
    let Some(query) = ruled(rule, lo_kind, lo, hi_kind, hi) else {
        return BAD_BOUND;
    };
    let map = Map {
        count,
        root,
        version: 0,
    };
    let from = Cursor { slot, levels, bits };
    drain(map, nodes, narrow, colours, query, from, limit, out, answer)
}

// Writes the slots of all entries that intersect a range by a rule. Answer: as for iset_plain.
pub fn plain_ruled_in(
    count: u64,
    root: u64,
    nodes: &[u64],
    narrow: bool,
    colours: &[u8],
    rule: u64,
    lo_kind: u64,
    lo: u64,
    hi_kind: u64,
    hi: u64,
    out: &mut [u64],
    answer: &mut [u64],
) -> u64
    ensures { exit result answer.new (out.new ∷ [])
        ≡ plain_exit (kinds lo_kind hi_kind) answer.old (map_of count root) (as_eight narrow nodes.now) colours.now (ruled_of rule lo_kind lo hi_kind hi) out.old }
{
    if answer.len() < 2 {
        return SHORT_ANSWER;
    }
    let Some(query) = ruled(rule, lo_kind, lo, hi_kind, hi) else {
        return BAD_BOUND;
    };
    let map = Map {
        count,
        root,
        version: 0,
    };
    answered(map.plain_in(nodes, narrow, colours, query, out), answer)
}

// The fast lookup by a rule. Answer: as for iset_find_all.
pub fn find_all_ruled_in(
    count: u64,
    root: u64,
    nodes: &[u64],
    narrow: bool,
    colours: &[u8],
    rule: u64,
    lo_kind: u64,
    lo: u64,
    hi_kind: u64,
    hi: u64,
    out: &mut [u64],
    answer: &mut [u64],
) -> u64
    ensures { exit result answer.new (out.new ∷ [])
        ≡ find_all_exit (kinds lo_kind hi_kind) answer.old (map_of count root) (as_eight narrow nodes.now) colours.now (ruled_of rule lo_kind lo hi_kind hi) out.old }
{
    if answer.len() < 2 {
        return SHORT_ANSWER;
    }
    let Some(query) = ruled(rule, lo_kind, lo, hi_kind, hi) else {
        return BAD_BOUND;
    };
    let map = Map {
        count,
        root,
        version: 0,
    };
    answered(map.find_all_in(nodes, narrow, colours, query, out), answer)
}

// Removes every entry that intersects a range by a rule. Answer: as for iset_unload.
pub fn unload_ruled_in(
    count: u64,
    root: u64,
    version: u32,
    nodes: &mut [u64],
    narrow: bool,
    colours: &mut [u8],
    rule: u64,
    lo_kind: u64,
    lo: u64,
    hi_kind: u64,
    hi: u64,
    answer: &mut [u64],
) -> u64
    ensures { exit result answer.new (as_eight narrow nodes.new ∷ colours.new ∷ [])
        ≡ unload_exit (kinds lo_kind hi_kind) answer.old (map_at count root version) (as_eight narrow nodes.old) colours.old rule (span_of lo_kind lo hi_kind hi) }
{
    if answer.len() < 4 {
        return SHORT_ANSWER;
    }
    let Some(range) = known_span(lo_kind, lo, hi_kind, hi) else {
        return BAD_BOUND;
    };
    let map = Map {
        count,
        root,
        version,
    };
    unload(map, nodes, narrow, colours, rule, range, answer)
}
