// Adds one entry.
#![tactic(auto, using(words::proofs::Refusals::number_pos, crate::proofs::Laws::insertable, crate::proofs::Layouts::capacity_same), unfolding(crate::specs::Insert::full_number, crate::specs::Insert::open_insert_number, crate::specs::Insert::room_then_check, crate::specs::Insert::insert_number, crate::specs::Insert::open_insert_call, crate::specs::Insert::insert_call))]

ghost use Rattle.std.specs.Prelude.{◌≡◌, Ok, ◌+◌, ◌<◌};
ghost use Rattle.words.specs.Layouts.{as_eight, HasIn};
ghost use Rattle.iset.specs.Effects.{effect};
ghost use Rattle.iset.specs.Check.{check_number};
ghost use Rattle.iset.specs.Insert.{entry_of, full_number, open_insert_number, room_then_check, insert_answer, insert_entry_lem, open_insert_call, insert_call};
ghost use Rattle.words.specs.Nodes.{HasBit};

use crate::{Map, next_version, sound_if};
use tree_in::force_insert;
use words::node::{Entry, capacity};
use words::refusal::Refusal;

// The map with the entry, the entry's slot, and how many hulls changed. A slot's hull is the least
// range that holds all entries of its subtree.
#[derive(Clone, Copy)]
pub struct Inserted {
    pub map: Map,
    pub slot: u64,
    pub reach: u64,
}

impl Map {
    // Returns NoRoom if the count has reached the capacity or is above it.
    fn test_full(self, nodes: &[u64], narrow: bool, colours: &[u8]) -> Result<(), Refusal>
        ensures { check_number result ≡ full_number self (as_eight narrow nodes.now) colours.now }
    {
        sound_if(
            self.count < capacity(nodes.len(), narrow, colours.len()),
            Refusal::NoRoom,
        )
    }

    // The first refusal of an insertion into an opened store (see lib.rt).
    fn test_entry(
        self,
        nodes: &[u64],
        narrow: bool,
        colours: &[u8],
        entry: Entry,
    ) -> Result<(), Refusal>
        ensures { check_number result ≡ open_insert_number self (as_eight narrow nodes.now) colours.now entry }
    {
        self.test_full(nodes, narrow, colours)?;
        sound_if(entry.start < entry.end, Refusal::BadInterval)
    }

    // What the public call tests first. A full store is refused before the check.
    fn test_insert(self, nodes: &[u64], narrow: bool, colours: &[u8]) -> Result<(), Refusal>
        ensures { check_number result ≡ room_then_check self (as_eight narrow nodes.now) colours.now }
    {
        self.test_full(nodes, narrow, colours)?;
        self.check_in(nodes, narrow, colours)
    }

    // Inserts an entry that there is room for.
    fn insert_entry(
        self,
        nodes: &mut [u64],
        narrow: bool,
        colours: &mut [u8],
        entry: Entry,
    ) -> Inserted
        requires { HasIn narrow nodes.old self.count × HasBit colours.old self.count }
        ensures { effect (insert_answer self (Ok result)) (as_eight narrow nodes.new) colours.new
            ≡ insert_entry_lem self (as_eight narrow nodes.old) colours.old entry }
    {
        let r = force_insert(nodes, narrow, colours, self.count, self.root, entry);
        Inserted {
            map: Map {
                count: self.count + 1,
                root: r.root,
                version: next_version(self.version),
            },
            slot: self.count,
            reach: r.reach,
        }
    }

    // `insert` for an opened store.
    pub fn open_insert_in(
        self,
        nodes: &mut [u64],
        narrow: bool,
        colours: &mut [u8],
        start: u64,
        end: u64,
        value: u64,
    ) -> Result<Inserted, Refusal>
        ensures { effect (insert_answer self result) (as_eight narrow nodes.new) colours.new
            ≡ open_insert_call self (as_eight narrow nodes.old) colours.old (entry_of start end value) }
    {
        let entry = Entry { start, end, value };
        self.test_entry(nodes, narrow, colours, entry)?;
        Ok(self.insert_entry(nodes, narrow, colours, entry))
    }

    // Adds one entry in slot `count`. No other entry changes slot. Entries with an equal interval
    // stay, and the new one comes after them.
    pub fn insert_in(
        self,
        nodes: &mut [u64],
        narrow: bool,
        colours: &mut [u8],
        start: u64,
        end: u64,
        value: u64,
    ) -> Result<Inserted, Refusal>
        ensures { effect (insert_answer self result) (as_eight narrow nodes.new) colours.new
            ≡ insert_call self (as_eight narrow nodes.old) colours.old (entry_of start end value) }
    {
        self.test_insert(nodes, narrow, colours)?;
        self.open_insert_in(nodes, narrow, colours, start, end, value)
    }
}
