// The fast lookup finds all hits at once. It tests both ends of a node's hull before it enters the
// node, so it enters no node that a drain does not enter. It finds what the other lookups find.
#![tactic(auto, using(words::proofs::Refusals::number_pos, crate::proofs::Lookups::startable), unfolding(crate::specs::Find::open_find_all_call, crate::specs::Find::find_all_call, crate::specs::Lookup::start_number))]

ghost use Rattle.std.specs.Prelude.{◌≡◌};
ghost use Rattle.words.specs.Layouts.{as_eight};
ghost use Rattle.iset.specs.Effects.{output};
ghost use Rattle.iset.specs.Tallies.{tally_answer};
ghost use Rattle.iset.specs.Find.{open_find_all_call, find_all_call};

use crate::Map;
use fast::find_all;
use iter::rules::Query;
use plain::Tally;
use words::refusal::Refusal;

impl Map {
    // `find_all` for an opened store.
    pub fn open_find_all_in(
        self,
        nodes: &[u64],
        narrow: bool,
        colours: &[u8],
        query: Query,
        out: &mut [u64],
    ) -> Result<Tally, Refusal>
        ensures { output (tally_answer result) out.new ≡ open_find_all_call self (as_eight narrow nodes.now) colours.now query out.old }
    {
        self.test_start(nodes, narrow, colours, query)?;
        Ok(find_all(nodes, narrow, self.count, self.root, query, out))
    }

    // Writes the slots of the entries that the query asks for, in tree order, as many as the output
    // has places for. The number of hits includes those that it has no place for.
    pub fn find_all_in(
        self,
        nodes: &[u64],
        narrow: bool,
        colours: &[u8],
        query: Query,
        out: &mut [u64],
    ) -> Result<Tally, Refusal>
        ensures { output (tally_answer result) out.new ≡ find_all_call self (as_eight narrow nodes.now) colours.now query out.old }
    {
        self.check_in(nodes, narrow, colours)?;
        self.open_find_all_in(nodes, narrow, colours, query, out)
    }
}
