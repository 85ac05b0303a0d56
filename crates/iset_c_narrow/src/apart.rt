// The calls of crate iset_c_disjoint, for nodes of six words: maps in which no two ranges overlap.
// Each is the call of either layout, whose name ends in `_in`, with `narrow` true.
#![tactic(auto, unfolding(words::specs::Layouts::as_eight))]

ghost use Rattle.std.specs.Prelude.{◌≡◌, [], ◌∷◌};
ghost use Rattle.words.specs.Layouts.{unpack};
ghost use Rattle.iset.specs.Insert.{entry_of};
ghost use Rattle.iset.specs.Maps.{map_at, map_of};
ghost use Rattle.disjoint.specs.Check.{disjoint_rule_lem};
ghost use Rattle.iset_c.specs.Replies.{exit};
ghost use Rattle.iset_c_disjoint.specs.Replies.{point_exit, place_exit, take_exit, open_point_exit, open_place_exit, open_take_exit};

use iset_c_disjoint::open::{
    open_disjoint_insert_in, open_disjoint_point_in, open_disjoint_remove_in,
};
use iset_c_disjoint::{
    disjoint_check_in, disjoint_insert_in, disjoint_point_in, disjoint_remove_in,
};

#[unsafe(no_mangle)]
pub extern "C" fn iset_narrow_disjoint_check(
    count: u64,
    root: u64,
    nodes: &[u64],
    colours: &[u8],
) -> u64
    ensures { result ≡ disjoint_rule_lem (map_of count root) (unpack nodes.now) colours.now }
{
    disjoint_check_in(count, root, nodes, true, colours)
}

#[unsafe(no_mangle)]
pub extern "C" fn iset_narrow_disjoint_point(
    count: u64,
    root: u64,
    nodes: &[u64],
    colours: &[u8],
    address: u64,
    answer: &mut [u64],
) -> u64
    ensures { exit result answer.new []
        ≡ point_exit answer.old (map_of count root) (unpack nodes.now) colours.now address }
{
    disjoint_point_in(count, root, nodes, true, colours, address, answer)
}

#[unsafe(no_mangle)]
pub extern "C" fn iset_narrow_disjoint_insert(
    count: u64,
    root: u64,
    version: u32,
    nodes: &mut [u64],
    colours: &mut [u8],
    start: u64,
    end: u64,
    value: u64,
    answer: &mut [u64],
) -> u64
    ensures { exit result answer.new (unpack nodes.new ∷ colours.new ∷ [])
        ≡ place_exit answer.old (map_at count root version) (unpack nodes.old) colours.old (entry_of start end value) }
{
    disjoint_insert_in(
        count, root, version, nodes, true, colours, start, end, value, answer,
    )
}

#[unsafe(no_mangle)]
pub extern "C" fn iset_narrow_disjoint_remove(
    count: u64,
    root: u64,
    version: u32,
    nodes: &mut [u64],
    colours: &mut [u8],
    slot: u64,
    answer: &mut [u64],
) -> u64
    ensures { exit result answer.new (unpack nodes.new ∷ colours.new ∷ [])
        ≡ take_exit answer.old (map_at count root version) (unpack nodes.old) colours.old slot }
{
    disjoint_remove_in(count, root, version, nodes, true, colours, slot, answer)
}

#[unsafe(no_mangle)]
pub extern "C" fn iset_narrow_open_disjoint_point(
    count: u64,
    root: u64,
    nodes: &[u64],
    colours: &[u8],
    address: u64,
    answer: &mut [u64],
) -> u64
    ensures { exit result answer.new []
        ≡ open_point_exit answer.old (map_of count root) (unpack nodes.now) colours.now address }
{
    open_disjoint_point_in(count, root, nodes, true, colours, address, answer)
}

#[unsafe(no_mangle)]
pub extern "C" fn iset_narrow_open_disjoint_insert(
    count: u64,
    root: u64,
    version: u32,
    nodes: &mut [u64],
    colours: &mut [u8],
    start: u64,
    end: u64,
    value: u64,
    answer: &mut [u64],
) -> u64
    ensures { exit result answer.new (unpack nodes.new ∷ colours.new ∷ [])
        ≡ open_place_exit answer.old (map_at count root version) (unpack nodes.old) colours.old (entry_of start end value) }
{
    open_disjoint_insert_in(
        count, root, version, nodes, true, colours, start, end, value, answer,
    )
}

#[unsafe(no_mangle)]
pub extern "C" fn iset_narrow_open_disjoint_remove(
    count: u64,
    root: u64,
    version: u32,
    nodes: &mut [u64],
    colours: &mut [u8],
    slot: u64,
    answer: &mut [u64],
) -> u64
    ensures { exit result answer.new (unpack nodes.new ∷ colours.new ∷ [])
        ≡ open_take_exit answer.old (map_at count root version) (unpack nodes.old) colours.old slot }
{
    open_disjoint_remove_in(count, root, version, nodes, true, colours, slot, answer)
}
