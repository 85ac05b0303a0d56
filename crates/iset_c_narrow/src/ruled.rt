// The calls of crate iset_c_ruled, for nodes of six words: lookups by a rule. Each is the call of
// either layout, whose name ends in `_in`, with `narrow` true.
#![tactic(auto, unfolding(words::specs::Layouts::as_eight))]

ghost use Rattle.std.specs.Prelude.{◌≡◌, [], ◌∷◌};
ghost use Rattle.words.specs.Layouts.{unpack};
ghost use Rattle.iset.specs.Maps.{map_at, map_of};
ghost use Rattle.iset_c.specs.Replies.{exit, cursor_of, step_exit, drain_exit, plain_exit, find_all_exit, unload_exit};
ghost use Rattle.iset_c.specs.Ranges.{kinds, span_of};
ghost use Rattle.iset_c_open.specs.Replies.{open_step_exit, open_drain_exit, open_plain_exit, open_find_all_exit, open_unload_exit};
ghost use Rattle.iset_c_ruled.specs.Ranges.{ruled_of};

use iset_c_ruled::closed::{
    drain_ruled_in, find_all_ruled_in, plain_ruled_in, step_ruled_in, unload_ruled_in,
};
use iset_c_ruled::opened::{
    open_drain_ruled_in, open_find_all_ruled_in, open_plain_ruled_in, open_step_ruled_in,
    open_unload_ruled_in,
};

#[unsafe(no_mangle)]
pub extern "C" fn iset_narrow_step_ruled(
    count: u64,
    root: u64,
    nodes: &[u64],
    colours: &[u8],
    rule: u64,
    lo_kind: u64,
    lo: u64,
    hi_kind: u64,
    hi: u64,
    slot: u64,
    levels: u64,
    bits: u64,
    answer: &mut [u64],
) -> u64
    ensures { exit result answer.new []
        ≡ step_exit (kinds lo_kind hi_kind) answer.old (map_of count root) (unpack nodes.now) colours.now (ruled_of rule lo_kind lo hi_kind hi) (cursor_of slot levels bits) }
{
    step_ruled_in(
        count, root, nodes, true, colours, rule, lo_kind, lo, hi_kind, hi, slot, levels, bits,
        answer,
    )
}

#[unsafe(no_mangle)]
pub extern "C" fn iset_narrow_drain_ruled(
    count: u64,
    root: u64,
    nodes: &[u64],
    colours: &[u8],
    rule: u64,
    lo_kind: u64,
    lo: u64,
    hi_kind: u64,
    hi: u64,
    slot: u64,
    levels: u64,
    bits: u64,
    limit: u64,
    out: &mut [u64],
    answer: &mut [u64],
) -> u64
    ensures { exit result answer.new (out.new ∷ [])
        ≡ drain_exit (kinds lo_kind hi_kind) answer.old (map_of count root) (unpack nodes.now) colours.now (ruled_of rule lo_kind lo hi_kind hi) (cursor_of slot levels bits) limit out.old }
{
    drain_ruled_in(
        count, root, nodes, true, colours, rule, lo_kind, lo, hi_kind, hi, slot, levels, bits,
        limit, out, answer,
    )
}

#[unsafe(no_mangle)]
pub extern "C" fn iset_narrow_plain_ruled(
    count: u64,
    root: u64,
    nodes: &[u64],
    colours: &[u8],
    rule: u64,
    lo_kind: u64,
    lo: u64,
    hi_kind: u64,
    hi: u64,
    out: &mut [u64],
    answer: &mut [u64],
) -> u64
    ensures { exit result answer.new (out.new ∷ [])
        ≡ plain_exit (kinds lo_kind hi_kind) answer.old (map_of count root) (unpack nodes.now) colours.now (ruled_of rule lo_kind lo hi_kind hi) out.old }
{
    plain_ruled_in(
        count, root, nodes, true, colours, rule, lo_kind, lo, hi_kind, hi, out, answer,
    )
}

#[unsafe(no_mangle)]
pub extern "C" fn iset_narrow_find_all_ruled(
    count: u64,
    root: u64,
    nodes: &[u64],
    colours: &[u8],
    rule: u64,
    lo_kind: u64,
    lo: u64,
    hi_kind: u64,
    hi: u64,
    out: &mut [u64],
    answer: &mut [u64],
) -> u64
    ensures { exit result answer.new (out.new ∷ [])
        ≡ find_all_exit (kinds lo_kind hi_kind) answer.old (map_of count root) (unpack nodes.now) colours.now (ruled_of rule lo_kind lo hi_kind hi) out.old }
{
    find_all_ruled_in(
        count, root, nodes, true, colours, rule, lo_kind, lo, hi_kind, hi, out, answer,
    )
}

#[unsafe(no_mangle)]
pub extern "C" fn iset_narrow_unload_ruled(
    count: u64,
    root: u64,
    version: u32,
    nodes: &mut [u64],
    colours: &mut [u8],
    rule: u64,
    lo_kind: u64,
    lo: u64,
    hi_kind: u64,
    hi: u64,
    answer: &mut [u64],
) -> u64
    ensures { exit result answer.new (unpack nodes.new ∷ colours.new ∷ [])
        ≡ unload_exit (kinds lo_kind hi_kind) answer.old (map_at count root version) (unpack nodes.old) colours.old rule (span_of lo_kind lo hi_kind hi) }
{
    unload_ruled_in(
        count, root, version, nodes, true, colours, rule, lo_kind, lo, hi_kind, hi, answer,
    )
}

#[unsafe(no_mangle)]
pub extern "C" fn iset_narrow_open_step_ruled(
    count: u64,
    root: u64,
    nodes: &[u64],
    colours: &[u8],
    rule: u64,
    lo_kind: u64,
    lo: u64,
    hi_kind: u64,
    hi: u64,
    slot: u64,
    levels: u64,
    bits: u64,
    answer: &mut [u64],
) -> u64
    ensures { exit result answer.new []
        ≡ open_step_exit (kinds lo_kind hi_kind) answer.old (map_of count root) (unpack nodes.now) colours.now (ruled_of rule lo_kind lo hi_kind hi) (cursor_of slot levels bits) }
{
    open_step_ruled_in(
        count, root, nodes, true, colours, rule, lo_kind, lo, hi_kind, hi, slot, levels, bits,
        answer,
    )
}

#[unsafe(no_mangle)]
pub extern "C" fn iset_narrow_open_drain_ruled(
    count: u64,
    root: u64,
    nodes: &[u64],
    colours: &[u8],
    rule: u64,
    lo_kind: u64,
    lo: u64,
    hi_kind: u64,
    hi: u64,
    slot: u64,
    levels: u64,
    bits: u64,
    limit: u64,
    out: &mut [u64],
    answer: &mut [u64],
) -> u64
    ensures { exit result answer.new (out.new ∷ [])
        ≡ open_drain_exit (kinds lo_kind hi_kind) answer.old (map_of count root) (unpack nodes.now) colours.now (ruled_of rule lo_kind lo hi_kind hi) (cursor_of slot levels bits) limit out.old }
{
    open_drain_ruled_in(
        count, root, nodes, true, colours, rule, lo_kind, lo, hi_kind, hi, slot, levels, bits,
        limit, out, answer,
    )
}

#[unsafe(no_mangle)]
pub extern "C" fn iset_narrow_open_plain_ruled(
    count: u64,
    root: u64,
    nodes: &[u64],
    colours: &[u8],
    rule: u64,
    lo_kind: u64,
    lo: u64,
    hi_kind: u64,
    hi: u64,
    out: &mut [u64],
    answer: &mut [u64],
) -> u64
    ensures { exit result answer.new (out.new ∷ [])
        ≡ open_plain_exit (kinds lo_kind hi_kind) answer.old (map_of count root) (unpack nodes.now) colours.now (ruled_of rule lo_kind lo hi_kind hi) out.old }
{
    open_plain_ruled_in(
        count, root, nodes, true, colours, rule, lo_kind, lo, hi_kind, hi, out, answer,
    )
}

#[unsafe(no_mangle)]
pub extern "C" fn iset_narrow_open_find_all_ruled(
    count: u64,
    root: u64,
    nodes: &[u64],
    colours: &[u8],
    rule: u64,
    lo_kind: u64,
    lo: u64,
    hi_kind: u64,
    hi: u64,
    out: &mut [u64],
    answer: &mut [u64],
) -> u64
    ensures { exit result answer.new (out.new ∷ [])
        ≡ open_find_all_exit (kinds lo_kind hi_kind) answer.old (map_of count root) (unpack nodes.now) colours.now (ruled_of rule lo_kind lo hi_kind hi) out.old }
{
    open_find_all_ruled_in(
        count, root, nodes, true, colours, rule, lo_kind, lo, hi_kind, hi, out, answer,
    )
}

#[unsafe(no_mangle)]
pub extern "C" fn iset_narrow_open_unload_ruled(
    count: u64,
    root: u64,
    version: u32,
    nodes: &mut [u64],
    colours: &mut [u8],
    rule: u64,
    lo_kind: u64,
    lo: u64,
    hi_kind: u64,
    hi: u64,
    answer: &mut [u64],
) -> u64
    ensures { exit result answer.new (unpack nodes.new ∷ colours.new ∷ [])
        ≡ open_unload_exit (kinds lo_kind hi_kind) answer.old (map_at count root version) (unpack nodes.old) colours.old rule (span_of lo_kind lo hi_kind hi) }
{
    open_unload_ruled_in(
        count, root, version, nodes, true, colours, rule, lo_kind, lo, hi_kind, hi, answer,
    )
}
