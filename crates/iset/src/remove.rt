// Removes one entry by its slot.
#![tactic(auto, using(words::proofs::Refusals::number_pos, crate::proofs::Laws::removable), unfolding(crate::specs::Remove::open_remove_number, crate::specs::Remove::remove_number, crate::specs::Remove::open_remove_call, crate::specs::Remove::remove_call))]

ghost use Rattle.std.specs.Prelude.{◌≡◌, Ok, ◌<◌};
ghost use Rattle.words.specs.Layouts.{as_eight, HoldsIn};
ghost use Rattle.iset.specs.Effects.{effect};
ghost use Rattle.iset.specs.Check.{check_number};
ghost use Rattle.iset.specs.Remove.{slot_after_lem, remove_answer, remove_slot_lem, open_remove_number, open_remove_call, remove_call};
ghost use Rattle.words.specs.Nodes.{HoldsBits};

use crate::{Map, next_version, sound_if};
use tree_rm::remove::remove_at;
use words::ix::U;
use words::pair::Pairs;
use words::refusal::Refusal;

// The map without the entry, the entry's value, the other entries that changed slot, and how many
// hulls changed. A slot's hull is the least range that holds all entries of its subtree.
#[derive(Clone, Copy)]
pub struct Removed {
    pub map: Map,
    pub value: u64,
    pub pairs: Pairs,
    pub reach: u64,
}

impl Removed {
    // Returns the slot of the entry that was in slot `kept` before this removal of slot `removed`,
    // or U if `kept` is `removed`.
    #[tactic(auto, unfolding(crate::specs::Remove::slot_after_lem))]
    pub fn slot_after(self, removed: u64, kept: u64) -> u64
        ensures { result ≡ slot_after_lem self.pairs removed kept }
    {
        if kept == removed {
            return U;
        }
        if self.pairs.first.old == kept {
            return self.pairs.first.new;
        }
        if self.pairs.second.old == kept {
            return self.pairs.second.new;
        }
        if self.pairs.third.old == kept {
            return self.pairs.third.new;
        }
        kept
    }
}

impl Map {
    // The first refusal of a removal from an opened store (see lib.rt).
    fn test_slot(
        self,
        nodes: &[u64],
        narrow: bool,
        colours: &[u8],
        slot: u64,
    ) -> Result<(), Refusal>
        ensures { check_number result ≡ open_remove_number self (as_eight narrow nodes.now) colours.now slot }
    {
        self.test_count(nodes, narrow, colours)?;
        sound_if(slot < self.count, Refusal::NoSuch)
    }

    // Removes a slot below the count.
    fn remove_slot(self, nodes: &mut [u64], narrow: bool, colours: &mut [u8], slot: u64) -> Removed
        requires { HoldsIn narrow nodes.old self.count × HoldsBits colours.old self.count × (slot < self.count) }
        ensures { effect (remove_answer self (Ok result)) (as_eight narrow nodes.new) colours.new
            ≡ remove_slot_lem self (as_eight narrow nodes.old) colours.old slot }
    {
        let r = remove_at(nodes, narrow, colours, self.count, self.root, slot);
        Removed {
            map: Map {
                count: self.count - 1,
                root: r.root,
                version: next_version(self.version),
            },
            value: r.value,
            pairs: r.pairs,
            reach: r.reach,
        }
    }

    // `remove` for an opened store.
    pub fn open_remove_in(
        self,
        nodes: &mut [u64],
        narrow: bool,
        colours: &mut [u8],
        slot: u64,
    ) -> Result<Removed, Refusal>
        ensures { effect (remove_answer self result) (as_eight narrow nodes.new) colours.new
            ≡ open_remove_call self (as_eight narrow nodes.old) colours.old slot }
    {
        self.test_slot(nodes, narrow, colours, slot)?;
        Ok(self.remove_slot(nodes, narrow, colours, slot))
    }

    // Removes the entry of a slot. Up to three other entries change slot. What it returns lists
    // them.
    pub fn remove_in(
        self,
        nodes: &mut [u64],
        narrow: bool,
        colours: &mut [u8],
        slot: u64,
    ) -> Result<Removed, Refusal>
        ensures { effect (remove_answer self result) (as_eight narrow nodes.new) colours.new
            ≡ remove_call self (as_eight narrow nodes.old) colours.old slot }
    {
        self.check_in(nodes, narrow, colours)?;
        self.open_remove_in(nodes, narrow, colours, slot)
    }
}
