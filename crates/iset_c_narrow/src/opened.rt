// The calls of crate iset_c_open, for nodes of six words: those without the store check. Each is
// the call of either layout, whose name ends in `_in`, with `narrow` true.
#![tactic(auto, unfolding(words::specs::Layouts::as_eight))]

ghost use Rattle.std.specs.Prelude.{◌≡◌, true, [], ◌∷◌};
ghost use Rattle.words.specs.Layouts.{unpack};
ghost use Rattle.iset.specs.Effects.{output};
ghost use Rattle.iset.specs.Insert.{entry_of};
ghost use Rattle.iset.specs.Maps.{map_at, map_of};
ghost use Rattle.iset.specs.Tidy.{open_propose_call};
ghost use Rattle.iset_c.specs.Replies.{exit, cursor_of, ticket_at_lem};
ghost use Rattle.iset_c.specs.Ranges.{range_of, span_of, interval_of_lem, exact_of, kinds};
ghost use Rattle.iset_c_open.specs.Replies.{open_remove_exit, open_insert_exit, open_unload_exit, open_renumber_exit, open_read_exit, open_write_image_exit, open_start_exit, open_step_exit, open_drain_exit, open_plain_exit, open_find_all_exit};

use iset_c_open::find::{open_find_all_exact_in, open_find_all_in};
use iset_c_open::lookup::{
    open_drain_exact_in, open_drain_in, open_fresh_exact_in, open_step_exact_in, open_step_in,
};
use iset_c_open::save::open_write_image_in;
use iset_c_open::scan::{open_plain_exact_in, open_plain_in};
use iset_c_open::ticket::open_read_in;
use iset_c_open::tidy::{open_propose_in, open_renumber_in};
use iset_c_open::unload::open_unload_in;
use iset_c_open::{open_insert_in, open_remove_in};

#[unsafe(no_mangle)]
pub extern "C" fn iset_narrow_open_remove(
    count: u64,
    root: u64,
    version: u32,
    nodes: &mut [u64],
    colours: &mut [u8],
    slot: u64,
    answer: &mut [u64],
) -> u64
    ensures { exit result answer.new (unpack nodes.new ∷ colours.new ∷ [])
        ≡ open_remove_exit answer.old (map_at count root version) (unpack nodes.old) colours.old slot }
{
    open_remove_in(count, root, version, nodes, true, colours, slot, answer)
}

#[unsafe(no_mangle)]
pub extern "C" fn iset_narrow_open_insert(
    count: u64,
    root: u64,
    version: u32,
    nodes: &mut [u64],
    colours: &mut [u8],
    start: u64,
    end: u64,
    value: u64,
    answer: &mut [u64],
) -> u64
    ensures { exit result answer.new (unpack nodes.new ∷ colours.new ∷ [])
        ≡ open_insert_exit answer.old (map_at count root version) (unpack nodes.old) colours.old (entry_of start end value) }
{
    open_insert_in(
        count, root, version, nodes, true, colours, start, end, value, answer,
    )
}

#[unsafe(no_mangle)]
pub extern "C" fn iset_narrow_open_unload(
    count: u64,
    root: u64,
    version: u32,
    nodes: &mut [u64],
    colours: &mut [u8],
    lo_kind: u64,
    lo: u64,
    hi_kind: u64,
    hi: u64,
    answer: &mut [u64],
) -> u64
    ensures { exit result answer.new (unpack nodes.new ∷ colours.new ∷ [])
        ≡ open_unload_exit (kinds lo_kind hi_kind) answer.old (map_at count root version) (unpack nodes.old) colours.old 1 (span_of lo_kind lo hi_kind hi) }
{
    open_unload_in(
        count, root, version, nodes, true, colours, lo_kind, lo, hi_kind, hi, answer,
    )
}

#[unsafe(no_mangle)]
pub extern "C" fn iset_narrow_open_propose(
    count: u64,
    root: u64,
    nodes: &[u64],
    colours: &[u8],
    out: &mut [u64],
) -> u64
    ensures { output result out.new ≡ open_propose_call (map_of count root) (unpack nodes.now) colours.now out.old }
{
    open_propose_in(count, root, nodes, true, colours, out)
}

#[unsafe(no_mangle)]
pub extern "C" fn iset_narrow_open_renumber(
    count: u64,
    root: u64,
    version: u32,
    nodes: &mut [u64],
    colours: &mut [u8],
    plan: &[u64],
    answer: &mut [u64],
) -> u64
    ensures { exit result answer.new (unpack nodes.new ∷ colours.new ∷ [])
        ≡ open_renumber_exit answer.old (map_at count root version) (unpack nodes.old) colours.old plan.now }
{
    open_renumber_in(count, root, version, nodes, true, colours, plan, answer)
}

#[unsafe(no_mangle)]
pub extern "C" fn iset_narrow_open_read(
    count: u64,
    root: u64,
    version: u32,
    nodes: &[u64],
    colours: &[u8],
    slot: u64,
    taken: u32,
    answer: &mut [u64],
) -> u64
    ensures { exit result answer.new []
        ≡ open_read_exit answer.old (map_at count root version) (unpack nodes.now) colours.now (ticket_at_lem slot taken) }
{
    open_read_in(
        count, root, version, nodes, true, colours, slot, taken, answer,
    )
}

#[unsafe(no_mangle)]
pub extern "C" fn iset_narrow_open_write_image(
    count: u64,
    root: u64,
    nodes: &[u64],
    colours: &[u8],
    out: &mut [u8],
    answer: &mut [u64],
) -> u64
    ensures { exit result answer.new (out.new ∷ [])
        ≡ open_write_image_exit answer.old (map_of count root) (unpack nodes.now) colours.now out.old }
{
    open_write_image_in(count, root, nodes, true, colours, out, answer)
}

#[unsafe(no_mangle)]
pub extern "C" fn iset_narrow_open_fresh_exact(
    count: u64,
    root: u64,
    nodes: &[u64],
    colours: &[u8],
    start: u64,
    end: u64,
    answer: &mut [u64],
) -> u64
    ensures { exit result answer.new []
        ≡ open_start_exit answer.old (map_of count root) (unpack nodes.now) colours.now (interval_of_lem start end) }
{
    open_fresh_exact_in(count, root, nodes, true, colours, start, end, answer)
}

#[unsafe(no_mangle)]
pub extern "C" fn iset_narrow_open_step(
    count: u64,
    root: u64,
    nodes: &[u64],
    colours: &[u8],
    lo_kind: u64,
    lo: u64,
    hi_kind: u64,
    hi: u64,
    slot: u64,
    levels: u64,
    bits: u64,
    answer: &mut [u64],
) -> u64
    ensures { exit result answer.new []
        ≡ open_step_exit (kinds lo_kind hi_kind) answer.old (map_of count root) (unpack nodes.now) colours.now (range_of lo_kind lo hi_kind hi) (cursor_of slot levels bits) }
{
    open_step_in(
        count, root, nodes, true, colours, lo_kind, lo, hi_kind, hi, slot, levels, bits, answer,
    )
}

#[unsafe(no_mangle)]
pub extern "C" fn iset_narrow_open_step_exact(
    count: u64,
    root: u64,
    nodes: &[u64],
    colours: &[u8],
    start: u64,
    end: u64,
    slot: u64,
    levels: u64,
    bits: u64,
    answer: &mut [u64],
) -> u64
    ensures { exit result answer.new []
        ≡ open_step_exit true answer.old (map_of count root) (unpack nodes.now) colours.now (exact_of start end) (cursor_of slot levels bits) }
{
    open_step_exact_in(
        count, root, nodes, true, colours, start, end, slot, levels, bits, answer,
    )
}

#[unsafe(no_mangle)]
pub extern "C" fn iset_narrow_open_drain(
    count: u64,
    root: u64,
    nodes: &[u64],
    colours: &[u8],
    lo_kind: u64,
    lo: u64,
    hi_kind: u64,
    hi: u64,
    slot: u64,
    levels: u64,
    bits: u64,
    limit: u64,
    out: &mut [u64],
    answer: &mut [u64],
) -> u64
    ensures { exit result answer.new (out.new ∷ [])
        ≡ open_drain_exit (kinds lo_kind hi_kind) answer.old (map_of count root) (unpack nodes.now) colours.now (range_of lo_kind lo hi_kind hi) (cursor_of slot levels bits) limit out.old }
{
    open_drain_in(
        count, root, nodes, true, colours, lo_kind, lo, hi_kind, hi, slot, levels, bits, limit,
        out, answer,
    )
}

#[unsafe(no_mangle)]
pub extern "C" fn iset_narrow_open_drain_exact(
    count: u64,
    root: u64,
    nodes: &[u64],
    colours: &[u8],
    start: u64,
    end: u64,
    slot: u64,
    levels: u64,
    bits: u64,
    limit: u64,
    out: &mut [u64],
    answer: &mut [u64],
) -> u64
    ensures { exit result answer.new (out.new ∷ [])
        ≡ open_drain_exit true answer.old (map_of count root) (unpack nodes.now) colours.now (exact_of start end) (cursor_of slot levels bits) limit out.old }
{
    open_drain_exact_in(
        count, root, nodes, true, colours, start, end, slot, levels, bits, limit, out, answer,
    )
}

#[unsafe(no_mangle)]
pub extern "C" fn iset_narrow_open_plain(
    count: u64,
    root: u64,
    nodes: &[u64],
    colours: &[u8],
    lo_kind: u64,
    lo: u64,
    hi_kind: u64,
    hi: u64,
    out: &mut [u64],
    answer: &mut [u64],
) -> u64
    ensures { exit result answer.new (out.new ∷ [])
        ≡ open_plain_exit (kinds lo_kind hi_kind) answer.old (map_of count root) (unpack nodes.now) colours.now (range_of lo_kind lo hi_kind hi) out.old }
{
    open_plain_in(
        count, root, nodes, true, colours, lo_kind, lo, hi_kind, hi, out, answer,
    )
}

#[unsafe(no_mangle)]
pub extern "C" fn iset_narrow_open_plain_exact(
    count: u64,
    root: u64,
    nodes: &[u64],
    colours: &[u8],
    start: u64,
    end: u64,
    out: &mut [u64],
    answer: &mut [u64],
) -> u64
    ensures { exit result answer.new (out.new ∷ [])
        ≡ open_plain_exit true answer.old (map_of count root) (unpack nodes.now) colours.now (exact_of start end) out.old }
{
    open_plain_exact_in(count, root, nodes, true, colours, start, end, out, answer)
}

#[unsafe(no_mangle)]
pub extern "C" fn iset_narrow_open_find_all(
    count: u64,
    root: u64,
    nodes: &[u64],
    colours: &[u8],
    lo_kind: u64,
    lo: u64,
    hi_kind: u64,
    hi: u64,
    out: &mut [u64],
    answer: &mut [u64],
) -> u64
    ensures { exit result answer.new (out.new ∷ [])
        ≡ open_find_all_exit (kinds lo_kind hi_kind) answer.old (map_of count root) (unpack nodes.now) colours.now (range_of lo_kind lo hi_kind hi) out.old }
{
    open_find_all_in(
        count, root, nodes, true, colours, lo_kind, lo, hi_kind, hi, out, answer,
    )
}

#[unsafe(no_mangle)]
pub extern "C" fn iset_narrow_open_find_all_exact(
    count: u64,
    root: u64,
    nodes: &[u64],
    colours: &[u8],
    start: u64,
    end: u64,
    out: &mut [u64],
    answer: &mut [u64],
) -> u64
    ensures { exit result answer.new (out.new ∷ [])
        ≡ open_find_all_exit true answer.old (map_of count root) (unpack nodes.now) colours.now (exact_of start end) out.old }
{
    open_find_all_exact_in(count, root, nodes, true, colours, start, end, out, answer)
}
