// Numbering the slots of an opened store anew.
ghost use Rattle.std.specs.Prelude.{◌≡◌, [], ◌∷◌};
ghost use Rattle.words.specs.Layouts.{as_eight};
ghost use Rattle.iset.specs.Effects.{output};
ghost use Rattle.iset.specs.Maps.{map_at, map_of};
ghost use Rattle.iset.specs.Tidy.{open_propose_call};
ghost use Rattle.iset_c.specs.Replies.{exit};
ghost use Rattle.iset_c_open.specs.Replies.{open_renumber_exit};

use iset::{Map, number_of};
use iset_c::SHORT_ANSWER;
use iset_c::answer::answered;

// Proposes a plan that numbers the slots in tree order: writes the place of each slot. It returns
// its number and writes no answer.
pub fn open_propose_in(
    count: u64,
    root: u64,
    nodes: &[u64],
    narrow: bool,
    colours: &[u8],
    out: &mut [u64],
) -> u64
    ensures { output result out.new ≡ open_propose_call (map_of count root) (as_eight narrow nodes.now) colours.now out.old }
{
    let map = Map {
        count,
        root,
        version: 0,
    };
    number_of(map.open_propose_in(nodes, narrow, colours, out))
}

// Moves each node to the slot that a plan gives it. Answer: count, root, version. The test of the
// plan takes 8 KiB of stack.
pub fn open_renumber_in(
    count: u64,
    root: u64,
    version: u32,
    nodes: &mut [u64],
    narrow: bool,
    colours: &mut [u8],
    plan: &[u64],
    answer: &mut [u64],
) -> u64
    ensures { exit result answer.new (as_eight narrow nodes.new ∷ colours.new ∷ [])
        ≡ open_renumber_exit answer.old (map_at count root version) (as_eight narrow nodes.old) colours.old plan.now }
{
    if answer.len() < 3 {
        return SHORT_ANSWER;
    }
    let map = Map {
        count,
        root,
        version,
    };
    answered(map.open_renumber_in(nodes, narrow, colours, plan), answer)
}
