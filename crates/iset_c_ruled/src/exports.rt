// The exports that are lent nodes of eight words. Each is the call of either layout, whose name
// ends in `_in`, with `narrow` false.
#![tactic(auto, unfolding(words::specs::Layouts::as_eight))]

ghost use Rattle.std.specs.Prelude.{◌≡◌, [], ◌∷◌};
ghost use Rattle.iset.specs.Maps.{map_at, map_of};
ghost use Rattle.iset_c.specs.Replies.{cursor_of, drain_exit, exit, find_all_exit, plain_exit, step_exit, unload_exit};
ghost use Rattle.iset_c.specs.Ranges.{kinds, span_of};
ghost use Rattle.iset_c_open.specs.Replies.{open_drain_exit, open_find_all_exit, open_plain_exit, open_step_exit, open_unload_exit};
ghost use Rattle.iset_c_ruled.specs.Ranges.{ruled_of};

use crate::closed::{
    drain_ruled_in, find_all_ruled_in, plain_ruled_in, step_ruled_in, unload_ruled_in,
};
use crate::opened::{
    open_drain_ruled_in, open_find_all_ruled_in, open_plain_ruled_in, open_step_ruled_in,
    open_unload_ruled_in,
};

pub fn iset_step_ruled(
    count: u64,
    root: u64,
    nodes: &[u64],
    colours: &[u8],
    rule: u64,
    lo_kind: u64,
    lo: u64,
    hi_kind: u64,
    hi: u64,
    slot: u64,
    levels: u64,
    bits: u64,
    answer: &mut [u64],
) -> u64
    ensures { exit result answer.new []
        ≡ step_exit (kinds lo_kind hi_kind) answer.old (map_of count root) nodes.now colours.now (ruled_of rule lo_kind lo hi_kind hi) (cursor_of slot levels bits) }
{
    step_ruled_in(
        count, root, nodes, false, colours, rule, lo_kind, lo, hi_kind, hi, slot, levels, bits,
        answer,
    )
}

pub fn iset_drain_ruled(
    count: u64,
    root: u64,
    nodes: &[u64],
    colours: &[u8],
    rule: u64,
    lo_kind: u64,
    lo: u64,
    hi_kind: u64,
    hi: u64,
    slot: u64,
    levels: u64,
    bits: u64,
    limit: u64,
    out: &mut [u64],
    answer: &mut [u64],
) -> u64
    ensures { exit result answer.new (out.new ∷ [])
        ≡ drain_exit (kinds lo_kind hi_kind) answer.old (map_of count root) nodes.now colours.now (ruled_of rule lo_kind lo hi_kind hi) (cursor_of slot levels bits) limit out.old }
{
    drain_ruled_in(
        count, root, nodes, false, colours, rule, lo_kind, lo, hi_kind, hi, slot, levels, bits,
        limit, out, answer,
    )
}

pub fn iset_plain_ruled(
    count: u64,
    root: u64,
    nodes: &[u64],
    colours: &[u8],
    rule: u64,
    lo_kind: u64,
    lo: u64,
    hi_kind: u64,
    hi: u64,
    out: &mut [u64],
    answer: &mut [u64],
) -> u64
    ensures { exit result answer.new (out.new ∷ [])
        ≡ plain_exit (kinds lo_kind hi_kind) answer.old (map_of count root) nodes.now colours.now (ruled_of rule lo_kind lo hi_kind hi) out.old }
{
    plain_ruled_in(
        count, root, nodes, false, colours, rule, lo_kind, lo, hi_kind, hi, out, answer,
    )
}

pub fn iset_find_all_ruled(
    count: u64,
    root: u64,
    nodes: &[u64],
    colours: &[u8],
    rule: u64,
    lo_kind: u64,
    lo: u64,
    hi_kind: u64,
    hi: u64,
    out: &mut [u64],
    answer: &mut [u64],
) -> u64
    ensures { exit result answer.new (out.new ∷ [])
        ≡ find_all_exit (kinds lo_kind hi_kind) answer.old (map_of count root) nodes.now colours.now (ruled_of rule lo_kind lo hi_kind hi) out.old }
{
    find_all_ruled_in(
        count, root, nodes, false, colours, rule, lo_kind, lo, hi_kind, hi, out, answer,
    )
}

pub fn iset_unload_ruled(
    count: u64,
    root: u64,
    version: u32,
    nodes: &mut [u64],
    colours: &mut [u8],
    rule: u64,
    lo_kind: u64,
    lo: u64,
    hi_kind: u64,
    hi: u64,
    answer: &mut [u64],
) -> u64
    ensures { exit result answer.new (nodes.new ∷ colours.new ∷ [])
        ≡ unload_exit (kinds lo_kind hi_kind) answer.old (map_at count root version) nodes.old colours.old rule (span_of lo_kind lo hi_kind hi) }
{
    unload_ruled_in(
        count, root, version, nodes, false, colours, rule, lo_kind, lo, hi_kind, hi, answer,
    )
}

pub fn iset_open_step_ruled(
    count: u64,
    root: u64,
    nodes: &[u64],
    colours: &[u8],
    rule: u64,
    lo_kind: u64,
    lo: u64,
    hi_kind: u64,
    hi: u64,
    slot: u64,
    levels: u64,
    bits: u64,
    answer: &mut [u64],
) -> u64
    ensures { exit result answer.new []
        ≡ open_step_exit (kinds lo_kind hi_kind) answer.old (map_of count root) nodes.now colours.now (ruled_of rule lo_kind lo hi_kind hi) (cursor_of slot levels bits) }
{
    open_step_ruled_in(
        count, root, nodes, false, colours, rule, lo_kind, lo, hi_kind, hi, slot, levels, bits,
        answer,
    )
}

pub fn iset_open_drain_ruled(
    count: u64,
    root: u64,
    nodes: &[u64],
    colours: &[u8],
    rule: u64,
    lo_kind: u64,
    lo: u64,
    hi_kind: u64,
    hi: u64,
    slot: u64,
    levels: u64,
    bits: u64,
    limit: u64,
    out: &mut [u64],
    answer: &mut [u64],
) -> u64
    ensures { exit result answer.new (out.new ∷ [])
        ≡ open_drain_exit (kinds lo_kind hi_kind) answer.old (map_of count root) nodes.now colours.now (ruled_of rule lo_kind lo hi_kind hi) (cursor_of slot levels bits) limit out.old }
{
    open_drain_ruled_in(
        count, root, nodes, false, colours, rule, lo_kind, lo, hi_kind, hi, slot, levels, bits,
        limit, out, answer,
    )
}

pub fn iset_open_plain_ruled(
    count: u64,
    root: u64,
    nodes: &[u64],
    colours: &[u8],
    rule: u64,
    lo_kind: u64,
    lo: u64,
    hi_kind: u64,
    hi: u64,
    out: &mut [u64],
    answer: &mut [u64],
) -> u64
    ensures { exit result answer.new (out.new ∷ [])
        ≡ open_plain_exit (kinds lo_kind hi_kind) answer.old (map_of count root) nodes.now colours.now (ruled_of rule lo_kind lo hi_kind hi) out.old }
{
    open_plain_ruled_in(
        count, root, nodes, false, colours, rule, lo_kind, lo, hi_kind, hi, out, answer,
    )
}

pub fn iset_open_find_all_ruled(
    count: u64,
    root: u64,
    nodes: &[u64],
    colours: &[u8],
    rule: u64,
    lo_kind: u64,
    lo: u64,
    hi_kind: u64,
    hi: u64,
    out: &mut [u64],
    answer: &mut [u64],
) -> u64
    ensures { exit result answer.new (out.new ∷ [])
        ≡ open_find_all_exit (kinds lo_kind hi_kind) answer.old (map_of count root) nodes.now colours.now (ruled_of rule lo_kind lo hi_kind hi) out.old }
{
    open_find_all_ruled_in(
        count, root, nodes, false, colours, rule, lo_kind, lo, hi_kind, hi, out, answer,
    )
}

pub fn iset_open_unload_ruled(
    count: u64,
    root: u64,
    version: u32,
    nodes: &mut [u64],
    colours: &mut [u8],
    rule: u64,
    lo_kind: u64,
    lo: u64,
    hi_kind: u64,
    hi: u64,
    answer: &mut [u64],
) -> u64
    ensures { exit result answer.new (nodes.new ∷ colours.new ∷ [])
        ≡ open_unload_exit (kinds lo_kind hi_kind) answer.old (map_at count root version) nodes.old colours.old rule (span_of lo_kind lo hi_kind hi) }
{
    open_unload_ruled_in(
        count, root, version, nodes, false, colours, rule, lo_kind, lo, hi_kind, hi, answer,
    )
}
