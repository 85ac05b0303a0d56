// Maps without overlaps for hosts in C and Rust: the exports that include/iset_disjoint.h declares.
// Each calls the function of its name in crate iset_c_disjoint and states its clauses again. Over
// extern "C" a slice is two scalars, its pointer and its length.
#![tactic(auto)]

ghost use Rattle.std.specs.Prelude.{◌≡◌, [], ◌∷◌};
ghost use Rattle.iset.specs.Insert.{entry_of};
ghost use Rattle.iset.specs.Maps.{map_at, map_of};
ghost use Rattle.disjoint.specs.Check.{disjoint_rule_lem};
ghost use Rattle.iset_c.specs.Replies.{exit};
ghost use Rattle.iset_c_disjoint.specs.Replies.{open_place_exit, open_point_exit, open_take_exit, place_exit, point_exit, take_exit};

use iset_c_disjoint::exports;

#[unsafe(no_mangle)]
pub extern "C" fn iset_disjoint_check(count: u64, root: u64, nodes: &[u64], colours: &[u8]) -> u64
    ensures { result ≡ disjoint_rule_lem (map_of count root) nodes.now colours.now }
{
    exports::iset_disjoint_check(count, root, nodes, colours)
}

#[unsafe(no_mangle)]
pub extern "C" fn iset_disjoint_point(
    count: u64,
    root: u64,
    nodes: &[u64],
    colours: &[u8],
    address: u64,
    answer: &mut [u64],
) -> u64
    ensures { exit result answer.new []
        ≡ point_exit answer.old (map_of count root) nodes.now colours.now address }
{
    exports::iset_disjoint_point(count, root, nodes, colours, address, answer)
}

#[unsafe(no_mangle)]
pub extern "C" fn iset_disjoint_insert(
    count: u64,
    root: u64,
    version: u32,
    nodes: &mut [u64],
    colours: &mut [u8],
    start: u64,
    end: u64,
    value: u64,
    answer: &mut [u64],
) -> u64
    ensures { exit result answer.new (nodes.new ∷ colours.new ∷ [])
        ≡ place_exit answer.old (map_at count root version) nodes.old colours.old (entry_of start end value) }
{
    exports::iset_disjoint_insert(
        count, root, version, nodes, colours, start, end, value, answer,
    )
}

#[unsafe(no_mangle)]
pub extern "C" fn iset_disjoint_remove(
    count: u64,
    root: u64,
    version: u32,
    nodes: &mut [u64],
    colours: &mut [u8],
    slot: u64,
    answer: &mut [u64],
) -> u64
    ensures { exit result answer.new (nodes.new ∷ colours.new ∷ [])
        ≡ take_exit answer.old (map_at count root version) nodes.old colours.old slot }
{
    exports::iset_disjoint_remove(count, root, version, nodes, colours, slot, answer)
}

#[unsafe(no_mangle)]
pub extern "C" fn iset_open_disjoint_point(
    count: u64,
    root: u64,
    nodes: &[u64],
    colours: &[u8],
    address: u64,
    answer: &mut [u64],
) -> u64
    ensures { exit result answer.new []
        ≡ open_point_exit answer.old (map_of count root) nodes.now colours.now address }
{
    exports::iset_open_disjoint_point(count, root, nodes, colours, address, answer)
}

#[unsafe(no_mangle)]
pub extern "C" fn iset_open_disjoint_insert(
    count: u64,
    root: u64,
    version: u32,
    nodes: &mut [u64],
    colours: &mut [u8],
    start: u64,
    end: u64,
    value: u64,
    answer: &mut [u64],
) -> u64
    ensures { exit result answer.new (nodes.new ∷ colours.new ∷ [])
        ≡ open_place_exit answer.old (map_at count root version) nodes.old colours.old (entry_of start end value) }
{
    exports::iset_open_disjoint_insert(
        count, root, version, nodes, colours, start, end, value, answer,
    )
}

#[unsafe(no_mangle)]
pub extern "C" fn iset_open_disjoint_remove(
    count: u64,
    root: u64,
    version: u32,
    nodes: &mut [u64],
    colours: &mut [u8],
    slot: u64,
    answer: &mut [u64],
) -> u64
    ensures { exit result answer.new (nodes.new ∷ colours.new ∷ [])
        ≡ open_take_exit answer.old (map_at count root version) nodes.old colours.old slot }
{
    exports::iset_open_disjoint_remove(count, root, version, nodes, colours, slot, answer)
}
