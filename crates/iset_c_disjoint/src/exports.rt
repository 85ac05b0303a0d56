// The exports that are lent nodes of eight words. Each is the call of either layout, whose name
// ends in `_in`, with `narrow` false.
#![tactic(auto, unfolding(words::specs::Layouts::as_eight))]

ghost use Rattle.std.specs.Prelude.{◌≡◌, [], ◌∷◌};
ghost use Rattle.iset.specs.Insert.{entry_of};
ghost use Rattle.iset.specs.Maps.{map_at, map_of};
ghost use Rattle.disjoint.specs.Check.{disjoint_rule_lem};
ghost use Rattle.iset_c.specs.Replies.{exit};
ghost use Rattle.iset_c_disjoint.specs.Replies.{open_place_exit, open_point_exit, open_take_exit, place_exit, point_exit, take_exit};

use crate::open::{open_disjoint_insert_in, open_disjoint_point_in, open_disjoint_remove_in};
use crate::{disjoint_check_in, disjoint_insert_in, disjoint_point_in, disjoint_remove_in};

pub fn iset_disjoint_check(count: u64, root: u64, nodes: &[u64], colours: &[u8]) -> u64
    ensures { result ≡ disjoint_rule_lem (map_of count root) nodes.now colours.now }
{
    disjoint_check_in(count, root, nodes, false, colours)
}

pub fn iset_disjoint_point(
    count: u64,
    root: u64,
    nodes: &[u64],
    colours: &[u8],
    address: u64,
    answer: &mut [u64],
) -> u64
    ensures { exit result answer.new []
        ≡ point_exit answer.old (map_of count root) nodes.now colours.now address }
{
    disjoint_point_in(count, root, nodes, false, colours, address, answer)
}

pub fn iset_disjoint_insert(
    count: u64,
    root: u64,
    version: u32,
    nodes: &mut [u64],
    colours: &mut [u8],
    start: u64,
    end: u64,
    value: u64,
    answer: &mut [u64],
) -> u64
    ensures { exit result answer.new (nodes.new ∷ colours.new ∷ [])
        ≡ place_exit answer.old (map_at count root version) nodes.old colours.old (entry_of start end value) }
{
    disjoint_insert_in(
        count, root, version, nodes, false, colours, start, end, value, answer,
    )
}

pub fn iset_disjoint_remove(
    count: u64,
    root: u64,
    version: u32,
    nodes: &mut [u64],
    colours: &mut [u8],
    slot: u64,
    answer: &mut [u64],
) -> u64
    ensures { exit result answer.new (nodes.new ∷ colours.new ∷ [])
        ≡ take_exit answer.old (map_at count root version) nodes.old colours.old slot }
{
    disjoint_remove_in(count, root, version, nodes, false, colours, slot, answer)
}

pub fn iset_open_disjoint_point(
    count: u64,
    root: u64,
    nodes: &[u64],
    colours: &[u8],
    address: u64,
    answer: &mut [u64],
) -> u64
    ensures { exit result answer.new []
        ≡ open_point_exit answer.old (map_of count root) nodes.now colours.now address }
{
    open_disjoint_point_in(count, root, nodes, false, colours, address, answer)
}

pub fn iset_open_disjoint_insert(
    count: u64,
    root: u64,
    version: u32,
    nodes: &mut [u64],
    colours: &mut [u8],
    start: u64,
    end: u64,
    value: u64,
    answer: &mut [u64],
) -> u64
    ensures { exit result answer.new (nodes.new ∷ colours.new ∷ [])
        ≡ open_place_exit answer.old (map_at count root version) nodes.old colours.old (entry_of start end value) }
{
    open_disjoint_insert_in(
        count, root, version, nodes, false, colours, start, end, value, answer,
    )
}

pub fn iset_open_disjoint_remove(
    count: u64,
    root: u64,
    version: u32,
    nodes: &mut [u64],
    colours: &mut [u8],
    slot: u64,
    answer: &mut [u64],
) -> u64
    ensures { exit result answer.new (nodes.new ∷ colours.new ∷ [])
        ≡ open_take_exit answer.old (map_at count root version) nodes.old colours.old slot }
{
    open_disjoint_remove_in(count, root, version, nodes, false, colours, slot, answer)
}
