// Removes one entry by its slot.
#![tactic(auto, using(words::proofs::Refusals::number_pos), unfolding(crate::specs::Take::take_number, crate::specs::Take::take_call, iset::specs::Remove::open_remove_call))]

ghost use Rattle.std.specs.Prelude.{◌≡◌};
ghost use Rattle.words.specs.Layouts.{as_eight};
ghost use Rattle.iset.specs.Effects.{effect};
ghost use Rattle.iset.specs.Remove.{remove_answer, open_remove_call};
ghost use Rattle.disjoint.specs.Take.{take_call};

use crate::DisjointMap;
use iset::remove::Removed;
use words::refusal::Refusal;

impl DisjointMap {
    // `remove` for an opened store (see lib.rt): that of crate iset.
    pub fn open_remove_in(
        self,
        nodes: &mut [u64],
        narrow: bool,
        colours: &mut [u8],
        slot: u64,
    ) -> Result<Removed, Refusal>
        ensures { effect (remove_answer self.map result) (as_eight narrow nodes.new) colours.new
            ≡ open_remove_call self.map (as_eight narrow nodes.old) colours.old slot }
    {
        self.map.open_remove_in(nodes, narrow, colours, slot)
    }

    // Removes the entry of a slot, as `Map::remove` does. What is left is disjoint too.
    pub fn remove_in(
        self,
        nodes: &mut [u64],
        narrow: bool,
        colours: &mut [u8],
        slot: u64,
    ) -> Result<Removed, Refusal>
        ensures { effect (remove_answer self.map result) (as_eight narrow nodes.new) colours.new
            ≡ take_call self.map (as_eight narrow nodes.old) colours.old slot }
    {
        self.check_in(nodes, narrow, colours)?;
        self.open_remove_in(nodes, narrow, colours, slot)
    }
}
