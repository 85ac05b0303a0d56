// Maps in which no two ranges overlap, though one may end where the next one starts: their public
// calls. Each call takes any numbers and any lent slices, and tests all of them itself. If
// something is refused, the call returns the first refusal in document 02's order, and nothing lent
// has changed. All other calls on such a map are those of crate iset on the map in it.
//
// The calls whose names begin with `open_` are inner functions for an opened store. That is a store
// that passed the check of this crate, and that nothing but these calls has written since. They do
// not run the check. Apart from that they do exactly what the public calls do. They require
// nothing. On any words each of them ends and stays inside what was lent. But what it returns may
// mean nothing if the store is not opened.
#![tactic(auto)]

pub mod eight;
pub mod insert;
pub mod point;
pub mod remove;

ghost use Rattle.std.specs.Prelude.{◌≡◌, cond};
ghost use Rattle.words.specs.Layouts.{as_eight, HoldsIn};
ghost use Rattle.iset.specs.Check.{check_number};
ghost use Rattle.disjoint_rule.specs.Apart.{apart_below};
ghost use Rattle.disjoint.specs.Check.{disjoint_rule_lem};

use disjoint_core::apart::all_apart;
pub use disjoint_core::point::Spot;
pub use iset::Map;
pub use iset::insert::Inserted;
pub use iset::remove::Removed;
pub use words::refusal::Refusal;

// A map of which its calls demand that no two entries intersect. Any map may stand in it: each call
// tests it.
#[derive(Clone, Copy)]
pub struct DisjointMap {
    pub map: Map,
}

// Returns NotDisjoint if two entries of a store that passes the check of crate iset intersect.
fn test_apart(nodes: &[u64], narrow: bool, count: u64) -> Result<(), Refusal>
    requires { HoldsIn narrow nodes.now count }
    ensures { check_number result ≡ cond (apart_below (as_eight narrow nodes.now) count count) 0 14 }
{
    if all_apart(nodes, narrow, count) {
        Ok(())
    } else {
        Err(Refusal::NotDisjoint)
    }
}

impl DisjointMap {
    // The check: that of crate iset, and then NotDisjoint if two entries intersect.
    #[tactic(auto, using(words::proofs::Refusals::number_pos, crate::proofs::Laws::checked_words), unfolding(crate::specs::Check::disjoint_rule_lem))]
    pub fn check_in(self, nodes: &[u64], narrow: bool, colours: &[u8]) -> Result<(), Refusal>
        ensures { check_number result ≡ disjoint_rule_lem self.map (as_eight narrow nodes.now) colours.now }
    {
        let map = self.map;
        map.check_in(nodes, narrow, colours)?;
        test_apart(nodes, narrow, map.count)
    }
}
