// The interval map of loaded code: its public calls. Each call takes any numbers and any lent
// slices, and tests all of them itself. If something is refused, the call returns the first refusal
// in document 01's order, and nothing lent has changed.
//
// The calls whose names begin with `open_` are inner functions for an opened store. That is a store
// that passed the check, and that nothing but these calls has written since. They do not run the
// check. Apart from that they do exactly what the public calls do: a public call is the check, and
// then the call that begins with `open_`. They require nothing. On any words each of them ends and
// stays inside what was lent. But what it returns may mean nothing if the store is not opened.
#![tactic(auto)]

pub mod build;
pub mod eight;
pub mod find;
pub mod insert;
pub mod lookup;
pub mod remove;
pub mod save;
pub mod scan;
pub mod ticket;
pub mod tidy;
pub mod unload;

// The types that the calls' signatures name, so that a user imports from this crate alone.
ghost use Rattle.std.specs.Prelude.{◌≡◌, if◌then◌else◌};
ghost use Rattle.words.specs.Layouts.{as_eight};
ghost use Rattle.words.specs.Refusals.{refusal_number};
ghost use Rattle.iset.specs.Maps.{empty_map, raised};
ghost use Rattle.iset.specs.Check.{check_number, count_number, check_rule};

use audit::audit;
pub use iter::Cursor;
pub use iter::drain::Drained;
pub use iter::rules::Query;
pub use iter::seek::Step;
pub use plain::Tally;
pub use words::interval::{Bound, Interval, Span};
use words::ix::U;
pub use words::node::Entry;
use words::node::capacity;
pub use words::pair::{Pair, Pairs};
pub use words::refusal::Refusal;

// A map: how many entries it holds, in slots 0 .. count - 1, the slot of its root, or U if it has
// none, and how often it was changed, modulo 2^32. Its nodes and colours are in the slices that are
// lent beside it.
#[derive(Clone, Copy)]
pub struct Map {
    pub count: u64,
    pub root: u64,
    pub version: u32,
}

// Returns the version of a map after one change more. After the greatest one comes 0.
pub fn next_version(version: u32) -> u32
    ensures { result ≡ raised version }
{
    version.wrapping_add(1)
}

// Ok if the test was passed, else its refusal.
fn sound_if(passed: bool, why: Refusal) -> Result<(), Refusal>
    ensures { check_number result ≡ (if passed then 0 else refusal_number why) }
{
    if passed { Ok(()) } else { Err(why) }
}

// The refusal's number, or 0 if there is none.
pub fn number_of(checked: Result<(), Refusal>) -> u64
    ensures { result ≡ check_number checked }
{
    match checked {
        Ok(()) => 0,
        Err(why) => why.number(),
    }
}

impl Map {
    // The map of no entries.
    pub fn new() -> Map
        ensures { result ≡ empty_map }
    {
        Map {
            count: 0,
            root: U,
            version: 0,
        }
    }

    // All that a call on an opened store tests of the store. Returns NoRoom if the count is above
    // what the slices hold.
    #[tactic(auto, using(crate::proofs::Layouts::capacity_same), unfolding(crate::specs::Check::count_number))]
    fn test_count(self, nodes: &[u64], narrow: bool, colours: &[u8]) -> Result<(), Refusal>
        ensures { check_number result ≡ count_number self (as_eight narrow nodes.now) colours.now }
    {
        sound_if(
            self.count <= capacity(nodes.len(), narrow, colours.len()),
            Refusal::NoRoom,
        )
    }

    // The store check. Returns NoRoom if the count is above what the slices hold, else Broken if
    // the store does not pass.
    #[tactic(auto, using(words::proofs::Refusals::number_pos, crate::proofs::Layouts::counted), unfolding(crate::specs::Check::count_number, crate::specs::Check::check_rule))]
    pub fn check_in(self, nodes: &[u64], narrow: bool, colours: &[u8]) -> Result<(), Refusal>
        ensures { check_number result ≡ check_rule self (as_eight narrow nodes.now) colours.now }
    {
        self.test_count(nodes, narrow, colours)?;
        sound_if(
            audit(nodes, narrow, colours, self.count, self.root),
            Refusal::Broken,
        )
    }
}
