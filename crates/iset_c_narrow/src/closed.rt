// The calls of crate iset_c, for nodes of six words. Each is the call of either layout, whose name
// ends in `_in`, with `narrow` true.
#![tactic(auto, unfolding(words::specs::Layouts::as_eight))]

ghost use Rattle.std.specs.Prelude.{◌≡◌, true, [], ◌∷◌};
ghost use Rattle.words.specs.Ix.{U};
ghost use Rattle.words.specs.Layouts.{unpack};
ghost use Rattle.iset.specs.Check.{check_rule};
ghost use Rattle.iset.specs.Effects.{output};
ghost use Rattle.iset.specs.Insert.{entry_of};
ghost use Rattle.iset.specs.Maps.{map_at, map_of};
ghost use Rattle.iset.specs.Tidy.{propose_call};
ghost use Rattle.iset_c.specs.Replies.{exit, cursor_of, ticket_at_lem, build_exit, remove_exit, insert_exit, unload_exit, renumber_exit, read_exit, write_image_exit, read_image_exit, start_exit, step_exit, drain_exit, plain_exit, find_all_exit};
ghost use Rattle.iset_c.specs.Ranges.{range_of, span_of, interval_of_lem, exact_of, kinds};

use iset_c::find::{find_all_exact_in, find_all_in};
use iset_c::lookup::{drain_exact_in, drain_in, fresh_exact_in, step_exact_in, step_in};
use iset_c::save::{read_image_in, write_image_in};
use iset_c::scan::{plain_exact_in, plain_in};
use iset_c::ticket::read_in;
use iset_c::tidy::{propose_in, renumber_in};
use iset_c::unload::unload_in;
use iset_c::{build_in, check_in, insert_in, remove_in};

#[unsafe(no_mangle)]
pub extern "C" fn iset_narrow_check(count: u64, root: u64, nodes: &[u64], colours: &[u8]) -> u64
    ensures { result ≡ check_rule (map_of count root) (unpack nodes.now) colours.now }
{
    check_in(count, root, nodes, true, colours)
}

#[unsafe(no_mangle)]
pub extern "C" fn iset_narrow_build(
    version: u32,
    nodes: &mut [u64],
    colours: &mut [u8],
    list: &[u64],
    answer: &mut [u64],
) -> u64
    ensures { exit result answer.new (unpack nodes.new ∷ colours.new ∷ [])
        ≡ build_exit answer.old (map_at 0 U version) (unpack nodes.old) colours.old list.now }
{
    build_in(version, nodes, true, colours, list, answer)
}

#[unsafe(no_mangle)]
pub extern "C" fn iset_narrow_remove(
    count: u64,
    root: u64,
    version: u32,
    nodes: &mut [u64],
    colours: &mut [u8],
    slot: u64,
    answer: &mut [u64],
) -> u64
    ensures { exit result answer.new (unpack nodes.new ∷ colours.new ∷ [])
        ≡ remove_exit answer.old (map_at count root version) (unpack nodes.old) colours.old slot }
{
    remove_in(count, root, version, nodes, true, colours, slot, answer)
}

#[unsafe(no_mangle)]
pub extern "C" fn iset_narrow_insert(
    count: u64,
    root: u64,
    version: u32,
    nodes: &mut [u64],
    colours: &mut [u8],
    start: u64,
    end: u64,
    value: u64,
    answer: &mut [u64],
) -> u64
    ensures { exit result answer.new (unpack nodes.new ∷ colours.new ∷ [])
        ≡ insert_exit answer.old (map_at count root version) (unpack nodes.old) colours.old (entry_of start end value) }
{
    insert_in(
        count, root, version, nodes, true, colours, start, end, value, answer,
    )
}

#[unsafe(no_mangle)]
pub extern "C" fn iset_narrow_unload(
    count: u64,
    root: u64,
    version: u32,
    nodes: &mut [u64],
    colours: &mut [u8],
    lo_kind: u64,
    lo: u64,
    hi_kind: u64,
    hi: u64,
    answer: &mut [u64],
) -> u64
    ensures { exit result answer.new (unpack nodes.new ∷ colours.new ∷ [])
        ≡ unload_exit (kinds lo_kind hi_kind) answer.old (map_at count root version) (unpack nodes.old) colours.old 1 (span_of lo_kind lo hi_kind hi) }
{
    unload_in(
        count, root, version, nodes, true, colours, lo_kind, lo, hi_kind, hi, answer,
    )
}

#[unsafe(no_mangle)]
pub extern "C" fn iset_narrow_propose(
    count: u64,
    root: u64,
    nodes: &[u64],
    colours: &[u8],
    out: &mut [u64],
) -> u64
    ensures { output result out.new ≡ propose_call (map_of count root) (unpack nodes.now) colours.now out.old }
{
    propose_in(count, root, nodes, true, colours, out)
}

#[unsafe(no_mangle)]
pub extern "C" fn iset_narrow_renumber(
    count: u64,
    root: u64,
    version: u32,
    nodes: &mut [u64],
    colours: &mut [u8],
    plan: &[u64],
    answer: &mut [u64],
) -> u64
    ensures { exit result answer.new (unpack nodes.new ∷ colours.new ∷ [])
        ≡ renumber_exit answer.old (map_at count root version) (unpack nodes.old) colours.old plan.now }
{
    renumber_in(count, root, version, nodes, true, colours, plan, answer)
}

#[unsafe(no_mangle)]
pub extern "C" fn iset_narrow_read(
    count: u64,
    root: u64,
    version: u32,
    nodes: &[u64],
    colours: &[u8],
    slot: u64,
    taken: u32,
    answer: &mut [u64],
) -> u64
    ensures { exit result answer.new []
        ≡ read_exit answer.old (map_at count root version) (unpack nodes.now) colours.now (ticket_at_lem slot taken) }
{
    read_in(
        count, root, version, nodes, true, colours, slot, taken, answer,
    )
}

#[unsafe(no_mangle)]
pub extern "C" fn iset_narrow_write_image(
    count: u64,
    root: u64,
    nodes: &[u64],
    colours: &[u8],
    out: &mut [u8],
    answer: &mut [u64],
) -> u64
    ensures { exit result answer.new (out.new ∷ [])
        ≡ write_image_exit answer.old (map_of count root) (unpack nodes.now) colours.now out.old }
{
    write_image_in(count, root, nodes, true, colours, out, answer)
}

#[unsafe(no_mangle)]
pub extern "C" fn iset_narrow_read_image(
    version: u32,
    nodes: &mut [u64],
    colours: &mut [u8],
    image: &[u8],
    answer: &mut [u64],
) -> u64
    ensures { exit result answer.new (unpack nodes.new ∷ colours.new ∷ [])
        ≡ read_image_exit answer.old (map_at 0 U version) (unpack nodes.old) colours.old image.now }
{
    read_image_in(version, nodes, true, colours, image, answer)
}

#[unsafe(no_mangle)]
pub extern "C" fn iset_narrow_fresh_exact(
    count: u64,
    root: u64,
    nodes: &[u64],
    colours: &[u8],
    start: u64,
    end: u64,
    answer: &mut [u64],
) -> u64
    ensures { exit result answer.new []
        ≡ start_exit answer.old (map_of count root) (unpack nodes.now) colours.now (interval_of_lem start end) }
{
    fresh_exact_in(count, root, nodes, true, colours, start, end, answer)
}

#[unsafe(no_mangle)]
pub extern "C" fn iset_narrow_step(
    count: u64,
    root: u64,
    nodes: &[u64],
    colours: &[u8],
    lo_kind: u64,
    lo: u64,
    hi_kind: u64,
    hi: u64,
    slot: u64,
    levels: u64,
    bits: u64,
    answer: &mut [u64],
) -> u64
    ensures { exit result answer.new []
        ≡ step_exit (kinds lo_kind hi_kind) answer.old (map_of count root) (unpack nodes.now) colours.now (range_of lo_kind lo hi_kind hi) (cursor_of slot levels bits) }
{
    step_in(
        count, root, nodes, true, colours, lo_kind, lo, hi_kind, hi, slot, levels, bits, answer,
    )
}

#[unsafe(no_mangle)]
pub extern "C" fn iset_narrow_step_exact(
    count: u64,
    root: u64,
    nodes: &[u64],
    colours: &[u8],
    start: u64,
    end: u64,
    slot: u64,
    levels: u64,
    bits: u64,
    answer: &mut [u64],
) -> u64
    ensures { exit result answer.new []
        ≡ step_exit true answer.old (map_of count root) (unpack nodes.now) colours.now (exact_of start end) (cursor_of slot levels bits) }
{
    step_exact_in(
        count, root, nodes, true, colours, start, end, slot, levels, bits, answer,
    )
}

#[unsafe(no_mangle)]
pub extern "C" fn iset_narrow_drain(
    count: u64,
    root: u64,
    nodes: &[u64],
    colours: &[u8],
    lo_kind: u64,
    lo: u64,
    hi_kind: u64,
    hi: u64,
    slot: u64,
    levels: u64,
    bits: u64,
    limit: u64,
    out: &mut [u64],
    answer: &mut [u64],
) -> u64
    ensures { exit result answer.new (out.new ∷ [])
        ≡ drain_exit (kinds lo_kind hi_kind) answer.old (map_of count root) (unpack nodes.now) colours.now (range_of lo_kind lo hi_kind hi) (cursor_of slot levels bits) limit out.old }
{
    drain_in(
        count, root, nodes, true, colours, lo_kind, lo, hi_kind, hi, slot, levels, bits, limit,
        out, answer,
    )
}

#[unsafe(no_mangle)]
pub extern "C" fn iset_narrow_drain_exact(
    count: u64,
    root: u64,
    nodes: &[u64],
    colours: &[u8],
    start: u64,
    end: u64,
    slot: u64,
    levels: u64,
    bits: u64,
    limit: u64,
    out: &mut [u64],
    answer: &mut [u64],
) -> u64
    ensures { exit result answer.new (out.new ∷ [])
        ≡ drain_exit true answer.old (map_of count root) (unpack nodes.now) colours.now (exact_of start end) (cursor_of slot levels bits) limit out.old }
{
    drain_exact_in(
        count, root, nodes, true, colours, start, end, slot, levels, bits, limit, out, answer,
    )
}

#[unsafe(no_mangle)]
pub extern "C" fn iset_narrow_plain(
    count: u64,
    root: u64,
    nodes: &[u64],
    colours: &[u8],
    lo_kind: u64,
    lo: u64,
    hi_kind: u64,
    hi: u64,
    out: &mut [u64],
    answer: &mut [u64],
) -> u64
    ensures { exit result answer.new (out.new ∷ [])
        ≡ plain_exit (kinds lo_kind hi_kind) answer.old (map_of count root) (unpack nodes.now) colours.now (range_of lo_kind lo hi_kind hi) out.old }
{
    plain_in(
        count, root, nodes, true, colours, lo_kind, lo, hi_kind, hi, out, answer,
    )
}

#[unsafe(no_mangle)]
pub extern "C" fn iset_narrow_plain_exact(
    count: u64,
    root: u64,
    nodes: &[u64],
    colours: &[u8],
    start: u64,
    end: u64,
    out: &mut [u64],
    answer: &mut [u64],
) -> u64
    ensures { exit result answer.new (out.new ∷ [])
        ≡ plain_exit true answer.old (map_of count root) (unpack nodes.now) colours.now (exact_of start end) out.old }
{
    plain_exact_in(count, root, nodes, true, colours, start, end, out, answer)
}

#[unsafe(no_mangle)]
pub extern "C" fn iset_narrow_find_all(
    count: u64,
    root: u64,
    nodes: &[u64],
    colours: &[u8],
    lo_kind: u64,
    lo: u64,
    hi_kind: u64,
    hi: u64,
    out: &mut [u64],
    answer: &mut [u64],
) -> u64
    ensures { exit result answer.new (out.new ∷ [])
        ≡ find_all_exit (kinds lo_kind hi_kind) answer.old (map_of count root) (unpack nodes.now) colours.now (range_of lo_kind lo hi_kind hi) out.old }
{
    find_all_in(
        count, root, nodes, true, colours, lo_kind, lo, hi_kind, hi, out, answer,
    )
}

#[unsafe(no_mangle)]
pub extern "C" fn iset_narrow_find_all_exact(
    count: u64,
    root: u64,
    nodes: &[u64],
    colours: &[u8],
    start: u64,
    end: u64,
    out: &mut [u64],
    answer: &mut [u64],
) -> u64
    ensures { exit result answer.new (out.new ∷ [])
        ≡ find_all_exit true answer.old (map_of count root) (unpack nodes.now) colours.now (exact_of start end) out.old }
{
    find_all_exact_in(count, root, nodes, true, colours, start, end, out, answer)
}
