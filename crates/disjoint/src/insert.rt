// Adds one entry, if no stored entry intersects it.
#![tactic(auto, using(words::proofs::Refusals::number_pos, iset::proofs::Layouts::capacity_same, iset::proofs::Layouts::room_in, crate::proofs::Checks::never_thirteen), unfolding(iset::specs::Check::count_number, crate::specs::Place::meet_number, crate::specs::Place::trial_number, crate::specs::Place::open_place_number, crate::specs::Place::place_number, crate::specs::Place::open_place_call, crate::specs::Place::place_call, iset::specs::Insert::open_insert_call))]

ghost use Rattle.std.specs.Prelude.{◌≡◌};
ghost use Rattle.words.specs.Layouts.{as_eight, HoldsIn};
ghost use Rattle.iset.specs.Effects.{effect};
ghost use Rattle.iset.specs.Insert.{entry_of};
ghost use Rattle.disjoint.specs.Place.{tried, trial_by, meet_number, trial_number, met, unnamed, place_answer, open_place_call, place_call};

use crate::DisjointMap;
use first::first_met;
use iset::insert::Inserted;
use words::interval::{Bound, Span};
use words::ix::U;
use words::node::capacity;
use words::refusal::Refusal;

// A refusal of an insertion. With Overlap comes the slot of the first entry in tree order that
// intersects the new one, and with any other refusal U.
#[derive(Clone, Copy)]
pub struct Blocked {
    pub why: Refusal,
    pub slot: u64,
}

// A refusal that names no slot.
impl From<Refusal> for Blocked {
    ghost from_gives = { λ why r. r ≡ unnamed why };

    fn from(why: Refusal) -> Blocked {
        Blocked { why, slot: U }
    }
}

// Returns BadInterval if the new interval holds no address, else Overlap with the first slot in
// tree order whose entry intersects it.
fn test_overlap(
    nodes: &[u64],
    narrow: bool,
    count: u64,
    root: u64,
    start: u64,
    end: u64,
) -> Result<(), Blocked>
    requires { HoldsIn narrow nodes.now count }
    ensures { tried result ≡ trial_by (meet_number (as_eight narrow nodes.now) count root start end) (met (as_eight narrow nodes.now) count root start end) }
{
    if end <= start {
        return Err(Blocked::from(Refusal::BadInterval));
    }
    let range = Span {
        lo: Bound::Included(start),
        hi: Bound::Excluded(end),
    };
    let slot = first_met(nodes, narrow, count, root, range);
    if slot < count {
        return Err(Blocked {
            why: Refusal::Overlap,
            slot,
        });
    }
    Ok(())
}

impl DisjointMap {
    // The first refusal of an insertion into an opened store (see lib.rt) that has room.
    fn test_place(
        self,
        nodes: &[u64],
        narrow: bool,
        colours: &[u8],
        start: u64,
        end: u64,
    ) -> Result<(), Blocked>
        ensures { tried result ≡ trial_by (trial_number self.map (as_eight narrow nodes.now) colours.now start end)
            (met (as_eight narrow nodes.now) self.map.count self.map.root start end) }
    {
        let map = self.map;
        if capacity(nodes.len(), narrow, colours.len()) < map.count {
            return Err(Blocked::from(Refusal::NoRoom));
        }
        test_overlap(nodes, narrow, map.count, map.root, start, end)
    }

    // `insert` for an opened store.
    pub fn open_insert_in(
        self,
        nodes: &mut [u64],
        narrow: bool,
        colours: &mut [u8],
        start: u64,
        end: u64,
        value: u64,
    ) -> Result<Inserted, Blocked>
        ensures { effect (place_answer self.map result) (as_eight narrow nodes.new) colours.new
            ≡ open_place_call self.map (as_eight narrow nodes.old) colours.old (entry_of start end value) }
    {
        self.test_place(nodes, narrow, colours, start, end)?;
        let map = self.map;
        Ok(map.open_insert_in(nodes, narrow, colours, start, end, value)?)
    }

    // Adds one entry in slot `count`. No other entry changes slot. If a stored entry intersects the
    // new one, it returns Overlap with the slot of the first such entry in tree order. A full store
    // is refused after that.
    pub fn insert_in(
        self,
        nodes: &mut [u64],
        narrow: bool,
        colours: &mut [u8],
        start: u64,
        end: u64,
        value: u64,
    ) -> Result<Inserted, Blocked>
        ensures { effect (place_answer self.map result) (as_eight narrow nodes.new) colours.new
            ≡ place_call self.map (as_eight narrow nodes.old) colours.old (entry_of start end value) }
    {
        self.check_in(nodes, narrow, colours)?;
        self.open_insert_in(nodes, narrow, colours, start, end, value)
    }
}
