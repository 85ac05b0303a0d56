// The map for hosts in C and Rust: the exports that include/iset.h declares. Each calls the
// function of its name in crate iset_c and states its clauses again. Over extern "C" a slice is two
// scalars, its pointer and its length.
#![tactic(auto)]

ghost use Rattle.std.specs.Prelude.{◌≡◌, true, [], ◌∷◌};
ghost use Rattle.words.specs.Ix.{U};
ghost use Rattle.iset.specs.Check.{check_rule};
ghost use Rattle.iset.specs.Effects.{output};
ghost use Rattle.iset.specs.Insert.{entry_of};
ghost use Rattle.iset.specs.Maps.{map_at, map_of};
ghost use Rattle.iset.specs.Tidy.{propose_call};
ghost use Rattle.iset_c.specs.Replies.{build_exit, cursor_of, drain_exit, exit, find_all_exit, insert_exit, plain_exit, read_exit, read_image_exit, remove_exit, renumber_exit, start_exit, step_exit, ticket_at_lem, unload_exit, write_image_exit, pairs_of, fresh_reply, answer_exit};
ghost use Rattle.iset_c.specs.Ranges.{exact_of, interval_of_lem, kinds, range_of, span_of};
ghost use Rattle.iset.specs.Remove.{slot_after_lem};
ghost use Rattle.iter.specs.Cursors.{fresh};

use iset_c::{exports, lookup};

#[unsafe(no_mangle)]
pub extern "C" fn iset_check(count: u64, root: u64, nodes: &[u64], colours: &[u8]) -> u64
    ensures { result ≡ check_rule (map_of count root) nodes.now colours.now }
{
    exports::iset_check(count, root, nodes, colours)
}

#[unsafe(no_mangle)]
pub extern "C" fn iset_build(
    version: u32,
    nodes: &mut [u64],
    colours: &mut [u8],
    list: &[u64],
    answer: &mut [u64],
) -> u64
    ensures { exit result answer.new (nodes.new ∷ colours.new ∷ [])
        ≡ build_exit answer.old (map_at 0 U version) nodes.old colours.old list.now }
{
    exports::iset_build(version, nodes, colours, list, answer)
}

#[unsafe(no_mangle)]
pub extern "C" fn iset_remove(
    count: u64,
    root: u64,
    version: u32,
    nodes: &mut [u64],
    colours: &mut [u8],
    slot: u64,
    answer: &mut [u64],
) -> u64
    ensures { exit result answer.new (nodes.new ∷ colours.new ∷ [])
        ≡ remove_exit answer.old (map_at count root version) nodes.old colours.old slot }
{
    exports::iset_remove(count, root, version, nodes, colours, slot, answer)
}

#[unsafe(no_mangle)]
pub extern "C" fn iset_insert(
    count: u64,
    root: u64,
    version: u32,
    nodes: &mut [u64],
    colours: &mut [u8],
    start: u64,
    end: u64,
    value: u64,
    answer: &mut [u64],
) -> u64
    ensures { exit result answer.new (nodes.new ∷ colours.new ∷ [])
        ≡ insert_exit answer.old (map_at count root version) nodes.old colours.old (entry_of start end value) }
{
    exports::iset_insert(
        count, root, version, nodes, colours, start, end, value, answer,
    )
}

#[unsafe(no_mangle)]
pub extern "C" fn iset_unload(
    count: u64,
    root: u64,
    version: u32,
    nodes: &mut [u64],
    colours: &mut [u8],
    lo_kind: u64,
    lo: u64,
    hi_kind: u64,
    hi: u64,
    answer: &mut [u64],
) -> u64
    ensures { exit result answer.new (nodes.new ∷ colours.new ∷ [])
        ≡ unload_exit (kinds lo_kind hi_kind) answer.old (map_at count root version) nodes.old colours.old 1 (span_of lo_kind lo hi_kind hi) }
{
    exports::iset_unload(
        count, root, version, nodes, colours, lo_kind, lo, hi_kind, hi, answer,
    )
}

#[unsafe(no_mangle)]
pub extern "C" fn iset_propose(
    count: u64,
    root: u64,
    nodes: &[u64],
    colours: &[u8],
    out: &mut [u64],
) -> u64
    ensures { output result out.new ≡ propose_call (map_of count root) nodes.now colours.now out.old }
{
    exports::iset_propose(count, root, nodes, colours, out)
}

#[unsafe(no_mangle)]
pub extern "C" fn iset_renumber(
    count: u64,
    root: u64,
    version: u32,
    nodes: &mut [u64],
    colours: &mut [u8],
    plan: &[u64],
    answer: &mut [u64],
) -> u64
    ensures { exit result answer.new (nodes.new ∷ colours.new ∷ [])
        ≡ renumber_exit answer.old (map_at count root version) nodes.old colours.old plan.now }
{
    exports::iset_renumber(count, root, version, nodes, colours, plan, answer)
}

#[unsafe(no_mangle)]
pub extern "C" fn iset_read(
    count: u64,
    root: u64,
    version: u32,
    nodes: &[u64],
    colours: &[u8],
    slot: u64,
    taken: u32,
    answer: &mut [u64],
) -> u64
    ensures { exit result answer.new []
        ≡ read_exit answer.old (map_at count root version) nodes.now colours.now (ticket_at_lem slot taken) }
{
    exports::iset_read(count, root, version, nodes, colours, slot, taken, answer)
}

#[unsafe(no_mangle)]
pub extern "C" fn iset_write_image(
    count: u64,
    root: u64,
    nodes: &[u64],
    colours: &[u8],
    out: &mut [u8],
    answer: &mut [u64],
) -> u64
    ensures { exit result answer.new (out.new ∷ [])
        ≡ write_image_exit answer.old (map_of count root) nodes.now colours.now out.old }
{
    exports::iset_write_image(count, root, nodes, colours, out, answer)
}

#[unsafe(no_mangle)]
pub extern "C" fn iset_read_image(
    version: u32,
    nodes: &mut [u64],
    colours: &mut [u8],
    image: &[u8],
    answer: &mut [u64],
) -> u64
    ensures { exit result answer.new (nodes.new ∷ colours.new ∷ [])
        ≡ read_image_exit answer.old (map_at 0 U version) nodes.old colours.old image.now }
{
    exports::iset_read_image(version, nodes, colours, image, answer)
}

#[unsafe(no_mangle)]
pub extern "C" fn iset_fresh_exact(
    count: u64,
    root: u64,
    nodes: &[u64],
    colours: &[u8],
    start: u64,
    end: u64,
    answer: &mut [u64],
) -> u64
    ensures { exit result answer.new []
        ≡ start_exit answer.old (map_of count root) nodes.now colours.now (interval_of_lem start end) }
{
    exports::iset_fresh_exact(count, root, nodes, colours, start, end, answer)
}

#[unsafe(no_mangle)]
pub extern "C" fn iset_step(
    count: u64,
    root: u64,
    nodes: &[u64],
    colours: &[u8],
    lo_kind: u64,
    lo: u64,
    hi_kind: u64,
    hi: u64,
    slot: u64,
    levels: u64,
    bits: u64,
    answer: &mut [u64],
) -> u64
    ensures { exit result answer.new []
        ≡ step_exit (kinds lo_kind hi_kind) answer.old (map_of count root) nodes.now colours.now (range_of lo_kind lo hi_kind hi) (cursor_of slot levels bits) }
{
    exports::iset_step(
        count, root, nodes, colours, lo_kind, lo, hi_kind, hi, slot, levels, bits, answer,
    )
}

#[unsafe(no_mangle)]
pub extern "C" fn iset_step_exact(
    count: u64,
    root: u64,
    nodes: &[u64],
    colours: &[u8],
    start: u64,
    end: u64,
    slot: u64,
    levels: u64,
    bits: u64,
    answer: &mut [u64],
) -> u64
    ensures { exit result answer.new []
        ≡ step_exit true answer.old (map_of count root) nodes.now colours.now (exact_of start end) (cursor_of slot levels bits) }
{
    exports::iset_step_exact(
        count, root, nodes, colours, start, end, slot, levels, bits, answer,
    )
}

#[unsafe(no_mangle)]
pub extern "C" fn iset_drain(
    count: u64,
    root: u64,
    nodes: &[u64],
    colours: &[u8],
    lo_kind: u64,
    lo: u64,
    hi_kind: u64,
    hi: u64,
    slot: u64,
    levels: u64,
    bits: u64,
    limit: u64,
    out: &mut [u64],
    answer: &mut [u64],
) -> u64
    ensures { exit result answer.new (out.new ∷ [])
        ≡ drain_exit (kinds lo_kind hi_kind) answer.old (map_of count root) nodes.now colours.now (range_of lo_kind lo hi_kind hi) (cursor_of slot levels bits) limit out.old }
{
    exports::iset_drain(
        count, root, nodes, colours, lo_kind, lo, hi_kind, hi, slot, levels, bits, limit, out,
        answer,
    )
}

#[unsafe(no_mangle)]
pub extern "C" fn iset_drain_exact(
    count: u64,
    root: u64,
    nodes: &[u64],
    colours: &[u8],
    start: u64,
    end: u64,
    slot: u64,
    levels: u64,
    bits: u64,
    limit: u64,
    out: &mut [u64],
    answer: &mut [u64],
) -> u64
    ensures { exit result answer.new (out.new ∷ [])
        ≡ drain_exit true answer.old (map_of count root) nodes.now colours.now (exact_of start end) (cursor_of slot levels bits) limit out.old }
{
    exports::iset_drain_exact(
        count, root, nodes, colours, start, end, slot, levels, bits, limit, out, answer,
    )
}

#[unsafe(no_mangle)]
pub extern "C" fn iset_plain(
    count: u64,
    root: u64,
    nodes: &[u64],
    colours: &[u8],
    lo_kind: u64,
    lo: u64,
    hi_kind: u64,
    hi: u64,
    out: &mut [u64],
    answer: &mut [u64],
) -> u64
    ensures { exit result answer.new (out.new ∷ [])
        ≡ plain_exit (kinds lo_kind hi_kind) answer.old (map_of count root) nodes.now colours.now (range_of lo_kind lo hi_kind hi) out.old }
{
    exports::iset_plain(
        count, root, nodes, colours, lo_kind, lo, hi_kind, hi, out, answer,
    )
}

#[unsafe(no_mangle)]
pub extern "C" fn iset_plain_exact(
    count: u64,
    root: u64,
    nodes: &[u64],
    colours: &[u8],
    start: u64,
    end: u64,
    out: &mut [u64],
    answer: &mut [u64],
) -> u64
    ensures { exit result answer.new (out.new ∷ [])
        ≡ plain_exit true answer.old (map_of count root) nodes.now colours.now (exact_of start end) out.old }
{
    exports::iset_plain_exact(count, root, nodes, colours, start, end, out, answer)
}

#[unsafe(no_mangle)]
pub extern "C" fn iset_find_all(
    count: u64,
    root: u64,
    nodes: &[u64],
    colours: &[u8],
    lo_kind: u64,
    lo: u64,
    hi_kind: u64,
    hi: u64,
    out: &mut [u64],
    answer: &mut [u64],
) -> u64
    ensures { exit result answer.new (out.new ∷ [])
        ≡ find_all_exit (kinds lo_kind hi_kind) answer.old (map_of count root) nodes.now colours.now (range_of lo_kind lo hi_kind hi) out.old }
{
    exports::iset_find_all(
        count, root, nodes, colours, lo_kind, lo, hi_kind, hi, out, answer,
    )
}

#[unsafe(no_mangle)]
pub extern "C" fn iset_find_all_exact(
    count: u64,
    root: u64,
    nodes: &[u64],
    colours: &[u8],
    start: u64,
    end: u64,
    out: &mut [u64],
    answer: &mut [u64],
) -> u64
    ensures { exit result answer.new (out.new ∷ [])
        ≡ find_all_exit true answer.old (map_of count root) nodes.now colours.now (exact_of start end) out.old }
{
    exports::iset_find_all_exact(count, root, nodes, colours, start, end, out, answer)
}

// Takes the answer of a removal of slot `removed`. Returns the slot of the entry that was in slot
// `kept` before it, or U if `kept` is `removed`.
#[unsafe(no_mangle)]
pub extern "C" fn iset_slot_after(answer: &[u64; 11], removed: u64, kept: u64) -> u64
    ensures { result ≡ slot_after_lem (pairs_of answer.now) removed kept }
{
    iset_c::iset_slot_after(answer, removed, kept)
}

// The fresh cursor of an overlap lookup. Answer: slot, levels, bits. The calls that take the cursor
// test the map.
#[unsafe(no_mangle)]
pub extern "C" fn iset_fresh(count: u64, root: u64, answer: &mut [u64]) -> u64
    ensures { exit result answer.new []
        ≡ answer_exit true answer.old (fresh_reply (fresh root)) }
{
    lookup::iset_fresh(count, root, answer)
}
