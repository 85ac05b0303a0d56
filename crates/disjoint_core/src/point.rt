// The point lookup: the entry that holds an address. It follows one way down the tree and reads at
// most three words of a node.
ghost use Rattle.std.specs.Prelude.{◌≡◌};
ghost use Rattle.words.specs.Layouts.{as_eight, HoldsIn};
ghost use Rattle.disjoint_core.specs.Answers.{spot};

use words::ix::U;
use words::node::{child_of, end_of, start_of};

// The slot of the entry that holds an address, or U, the undefined link, if there is none; and how
// many nodes the lookup entered. A node is entered if the address is compared with its interval.
#[derive(Clone, Copy)]
pub struct Spot {
    pub slot: u64,
    pub entered: u64,
}

// Goes left below the start of a node, right at or past its end, and ends at a node that holds the
// address. It enters at most 32 nodes.
pub fn point_below(nodes: &[u64], narrow: bool, count: u64, root: u64, address: u64) -> Spot
    requires { HoldsIn narrow nodes.now count }
    ensures { result ≡ spot (as_eight narrow nodes.now) count root address }
{
    let mut at = root;
    for entered in 0..32 {
        if count <= at {
            return Spot { slot: U, entered };
        }
        let left = address < start_of(nodes, narrow, at);
        let below_end = address < end_of(nodes, narrow, at);
        if !left & below_end {
            return Spot {
                slot: at,
                entered: entered + 1,
            };
        }
        at = child_of(nodes, narrow, at, left);
    }
    Spot {
        slot: U,
        entered: 32,
    }
}
