// The calls by a rule for hosts in C and Rust: the exports that include/iset_ruled.h declares. Each
// calls the function of its name in crate iset_c_ruled and states its clauses again. Over extern
// "C" a slice is two scalars, its pointer and its length.
#![tactic(auto)]

ghost use Rattle.std.specs.Prelude.{◌≡◌, [], ◌∷◌};
ghost use Rattle.iset.specs.Maps.{map_at, map_of};
ghost use Rattle.iset_c.specs.Replies.{cursor_of, drain_exit, exit, find_all_exit, plain_exit, step_exit, unload_exit};
ghost use Rattle.iset_c.specs.Ranges.{kinds, span_of};
ghost use Rattle.iset_c_open.specs.Replies.{open_drain_exit, open_find_all_exit, open_plain_exit, open_step_exit, open_unload_exit};
ghost use Rattle.iset_c_ruled.specs.Ranges.{ruled_of};

use iset_c_ruled::exports;

#[unsafe(no_mangle)]
pub extern "C" fn iset_step_ruled(
    count: u64,
    root: u64,
    nodes: &[u64],
    colours: &[u8],
    rule: u64,
    lo_kind: u64,
    lo: u64,
    hi_kind: u64,
    hi: u64,
    slot: u64,
    levels: u64,
    bits: u64,
    answer: &mut [u64],
) -> u64
    ensures { exit result answer.new []
        ≡ step_exit (kinds lo_kind hi_kind) answer.old (map_of count root) nodes.now colours.now (ruled_of rule lo_kind lo hi_kind hi) (cursor_of slot levels bits) }
{
    exports::iset_step_ruled(
        count, root, nodes, colours, rule, lo_kind, lo, hi_kind, hi, slot, levels, bits, answer,
    )
}

#[unsafe(no_mangle)]
pub extern "C" fn iset_drain_ruled(
    count: u64,
    root: u64,
    nodes: &[u64],
    colours: &[u8],
    rule: u64,
    lo_kind: u64,
    lo: u64,
    hi_kind: u64,
    hi: u64,
    slot: u64,
    levels: u64,
    bits: u64,
    limit: u64,
    out: &mut [u64],
    answer: &mut [u64],
) -> u64
    ensures { exit result answer.new (out.new ∷ [])
        ≡ drain_exit (kinds lo_kind hi_kind) answer.old (map_of count root) nodes.now colours.now (ruled_of rule lo_kind lo hi_kind hi) (cursor_of slot levels bits) limit out.old }
{
    exports::iset_drain_ruled(
        count, root, nodes, colours, rule, lo_kind, lo, hi_kind, hi, slot, levels, bits, limit,
        out, answer,
    )
}

#[unsafe(no_mangle)]
pub extern "C" fn iset_plain_ruled(
    count: u64,
    root: u64,
    nodes: &[u64],
    colours: &[u8],
    rule: u64,
    lo_kind: u64,
    lo: u64,
    hi_kind: u64,
    hi: u64,
    out: &mut [u64],
    answer: &mut [u64],
) -> u64
    ensures { exit result answer.new (out.new ∷ [])
        ≡ plain_exit (kinds lo_kind hi_kind) answer.old (map_of count root) nodes.now colours.now (ruled_of rule lo_kind lo hi_kind hi) out.old }
{
    exports::iset_plain_ruled(
        count, root, nodes, colours, rule, lo_kind, lo, hi_kind, hi, out, answer,
    )
}

#[unsafe(no_mangle)]
pub extern "C" fn iset_find_all_ruled(
    count: u64,
    root: u64,
    nodes: &[u64],
    colours: &[u8],
    rule: u64,
    lo_kind: u64,
    lo: u64,
    hi_kind: u64,
    hi: u64,
    out: &mut [u64],
    answer: &mut [u64],
) -> u64
    ensures { exit result answer.new (out.new ∷ [])
        ≡ find_all_exit (kinds lo_kind hi_kind) answer.old (map_of count root) nodes.now colours.now (ruled_of rule lo_kind lo hi_kind hi) out.old }
{
    exports::iset_find_all_ruled(
        count, root, nodes, colours, rule, lo_kind, lo, hi_kind, hi, out, answer,
    )
}

#[unsafe(no_mangle)]
pub extern "C" fn iset_unload_ruled(
    count: u64,
    root: u64,
    version: u32,
    nodes: &mut [u64],
    colours: &mut [u8],
    rule: u64,
    lo_kind: u64,
    lo: u64,
    hi_kind: u64,
    hi: u64,
    answer: &mut [u64],
) -> u64
    ensures { exit result answer.new (nodes.new ∷ colours.new ∷ [])
        ≡ unload_exit (kinds lo_kind hi_kind) answer.old (map_at count root version) nodes.old colours.old rule (span_of lo_kind lo hi_kind hi) }
{
    exports::iset_unload_ruled(
        count, root, version, nodes, colours, rule, lo_kind, lo, hi_kind, hi, answer,
    )
}

#[unsafe(no_mangle)]
pub extern "C" fn iset_open_step_ruled(
    count: u64,
    root: u64,
    nodes: &[u64],
    colours: &[u8],
    rule: u64,
    lo_kind: u64,
    lo: u64,
    hi_kind: u64,
    hi: u64,
    slot: u64,
    levels: u64,
    bits: u64,
    answer: &mut [u64],
) -> u64
    ensures { exit result answer.new []
        ≡ open_step_exit (kinds lo_kind hi_kind) answer.old (map_of count root) nodes.now colours.now (ruled_of rule lo_kind lo hi_kind hi) (cursor_of slot levels bits) }
{
    exports::iset_open_step_ruled(
        count, root, nodes, colours, rule, lo_kind, lo, hi_kind, hi, slot, levels, bits, answer,
    )
}

#[unsafe(no_mangle)]
pub extern "C" fn iset_open_drain_ruled(
    count: u64,
    root: u64,
    nodes: &[u64],
    colours: &[u8],
    rule: u64,
    lo_kind: u64,
    lo: u64,
    hi_kind: u64,
    hi: u64,
    slot: u64,
    levels: u64,
    bits: u64,
    limit: u64,
    out: &mut [u64],
    answer: &mut [u64],
) -> u64
    ensures { exit result answer.new (out.new ∷ [])
        ≡ open_drain_exit (kinds lo_kind hi_kind) answer.old (map_of count root) nodes.now colours.now (ruled_of rule lo_kind lo hi_kind hi) (cursor_of slot levels bits) limit out.old }
{
    exports::iset_open_drain_ruled(
        count, root, nodes, colours, rule, lo_kind, lo, hi_kind, hi, slot, levels, bits, limit,
        out, answer,
    )
}

#[unsafe(no_mangle)]
pub extern "C" fn iset_open_plain_ruled(
    count: u64,
    root: u64,
    nodes: &[u64],
    colours: &[u8],
    rule: u64,
    lo_kind: u64,
    lo: u64,
    hi_kind: u64,
    hi: u64,
    out: &mut [u64],
    answer: &mut [u64],
) -> u64
    ensures { exit result answer.new (out.new ∷ [])
        ≡ open_plain_exit (kinds lo_kind hi_kind) answer.old (map_of count root) nodes.now colours.now (ruled_of rule lo_kind lo hi_kind hi) out.old }
{
    exports::iset_open_plain_ruled(
        count, root, nodes, colours, rule, lo_kind, lo, hi_kind, hi, out, answer,
    )
}

#[unsafe(no_mangle)]
pub extern "C" fn iset_open_find_all_ruled(
    count: u64,
    root: u64,
    nodes: &[u64],
    colours: &[u8],
    rule: u64,
    lo_kind: u64,
    lo: u64,
    hi_kind: u64,
    hi: u64,
    out: &mut [u64],
    answer: &mut [u64],
) -> u64
    ensures { exit result answer.new (out.new ∷ [])
        ≡ open_find_all_exit (kinds lo_kind hi_kind) answer.old (map_of count root) nodes.now colours.now (ruled_of rule lo_kind lo hi_kind hi) out.old }
{
    exports::iset_open_find_all_ruled(
        count, root, nodes, colours, rule, lo_kind, lo, hi_kind, hi, out, answer,
    )
}

#[unsafe(no_mangle)]
pub extern "C" fn iset_open_unload_ruled(
    count: u64,
    root: u64,
    version: u32,
    nodes: &mut [u64],
    colours: &mut [u8],
    rule: u64,
    lo_kind: u64,
    lo: u64,
    hi_kind: u64,
    hi: u64,
    answer: &mut [u64],
) -> u64
    ensures { exit result answer.new (nodes.new ∷ colours.new ∷ [])
        ≡ open_unload_exit (kinds lo_kind hi_kind) answer.old (map_at count root version) nodes.old colours.old rule (span_of lo_kind lo hi_kind hi) }
{
    exports::iset_open_unload_ruled(
        count, root, version, nodes, colours, rule, lo_kind, lo, hi_kind, hi, answer,
    )
}
