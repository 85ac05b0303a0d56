// The calls of document 02 on disjoint maps, for nodes of eight words. Each is the call of either
// layout, whose name ends in `_in`, with `narrow` false.
#![tactic(auto, unfolding(words::specs::Layouts::as_eight))]

ghost use Rattle.std.specs.Prelude.{◌≡◌};
ghost use Rattle.disjoint.specs.Check.{disjoint_rule_lem};
ghost use Rattle.disjoint.specs.Place.{open_place_call, place_answer, place_call};
ghost use Rattle.disjoint.specs.Point.{open_point_call, point_answer, point_call};
ghost use Rattle.disjoint.specs.Take.{take_call};
ghost use Rattle.iset.specs.Check.{check_number};
ghost use Rattle.iset.specs.Effects.{effect};
ghost use Rattle.iset.specs.Insert.{entry_of};
ghost use Rattle.iset.specs.Remove.{open_remove_call, remove_answer};

use crate::DisjointMap;
use crate::insert::Blocked;
use disjoint_core::point::Spot;
use iset::insert::Inserted;
use iset::remove::Removed;
use words::refusal::Refusal;

impl DisjointMap {
    pub fn check(self, nodes: &[u64], colours: &[u8]) -> Result<(), Refusal>
        ensures { check_number result ≡ disjoint_rule_lem self.map nodes.now colours.now }
    {
        self.check_in(nodes, false, colours)
    }

    pub fn point(self, nodes: &[u64], colours: &[u8], address: u64) -> Result<Spot, Refusal>
        ensures { point_answer result ≡ point_call self.map nodes.now colours.now address }
    {
        self.point_in(nodes, false, colours, address)
    }

    pub fn open_point(self, nodes: &[u64], colours: &[u8], address: u64) -> Result<Spot, Refusal>
        ensures { point_answer result ≡ open_point_call self.map nodes.now colours.now address }
    {
        self.open_point_in(nodes, false, colours, address)
    }

    pub fn insert(
        self,
        nodes: &mut [u64],
        colours: &mut [u8],
        start: u64,
        end: u64,
        value: u64,
    ) -> Result<Inserted, Blocked>
        ensures { effect (place_answer self.map result) nodes.new colours.new
            ≡ place_call self.map nodes.old colours.old (entry_of start end value) }
    {
        self.insert_in(nodes, false, colours, start, end, value)
    }

    pub fn open_insert(
        self,
        nodes: &mut [u64],
        colours: &mut [u8],
        start: u64,
        end: u64,
        value: u64,
    ) -> Result<Inserted, Blocked>
        ensures { effect (place_answer self.map result) nodes.new colours.new
            ≡ open_place_call self.map nodes.old colours.old (entry_of start end value) }
    {
        self.open_insert_in(nodes, false, colours, start, end, value)
    }

    pub fn remove(
        self,
        nodes: &mut [u64],
        colours: &mut [u8],
        slot: u64,
    ) -> Result<Removed, Refusal>
        ensures { effect (remove_answer self.map result) nodes.new colours.new
            ≡ take_call self.map nodes.old colours.old slot }
    {
        self.remove_in(nodes, false, colours, slot)
    }

    pub fn open_remove(
        self,
        nodes: &mut [u64],
        colours: &mut [u8],
        slot: u64,
    ) -> Result<Removed, Refusal>
        ensures { effect (remove_answer self.map result) nodes.new colours.new
            ≡ open_remove_call self.map nodes.old colours.old slot }
    {
        self.open_remove_in(nodes, false, colours, slot)
    }
}
