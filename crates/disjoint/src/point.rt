// Looks up the entry that holds an address.
#![tactic(auto, using(words::proofs::Refusals::number_pos, iset::proofs::Layouts::capacity_same, iset::proofs::Layouts::room_in, crate::proofs::Checks::counted), unfolding(iset::specs::Check::count_number, crate::specs::Point::open_point_call, crate::specs::Point::point_call))]

ghost use Rattle.std.specs.Prelude.{◌≡◌};
ghost use Rattle.words.specs.Layouts.{as_eight};
ghost use Rattle.disjoint.specs.Point.{point_answer, open_point_call, point_call};

use crate::DisjointMap;
use disjoint_core::point::{Spot, point_below};
use words::node::capacity;
use words::refusal::Refusal;

impl DisjointMap {
    // `point` for an opened store (see lib.rt). It enters at most as many nodes as the tree is
    // high.
    pub fn open_point_in(
        self,
        nodes: &[u64],
        narrow: bool,
        colours: &[u8],
        address: u64,
    ) -> Result<Spot, Refusal>
        ensures { point_answer result ≡ open_point_call self.map (as_eight narrow nodes.now) colours.now address }
    {
        let map = self.map;
        if capacity(nodes.len(), narrow, colours.len()) < map.count {
            return Err(Refusal::NoRoom);
        }
        Ok(point_below(nodes, narrow, map.count, map.root, address))
    }

    // Finds the entry that holds an address. No two entries hold it. The lookup goes left below the
    // start of a node's entry, and right at or past its end.
    pub fn point_in(
        self,
        nodes: &[u64],
        narrow: bool,
        colours: &[u8],
        address: u64,
    ) -> Result<Spot, Refusal>
        ensures { point_answer result ≡ point_call self.map (as_eight narrow nodes.now) colours.now address }
    {
        self.check_in(nodes, narrow, colours)?;
        self.open_point_in(nodes, narrow, colours, address)
    }
}
