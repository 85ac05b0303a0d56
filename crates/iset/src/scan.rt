// The plain lookup visits every entry in tree order and tests each of them, without pruning. It
// finds what the other lookups find.
#![tactic(auto, using(words::proofs::Refusals::number_pos, crate::proofs::Plains::findable), unfolding(crate::specs::Plain::open_plain_number, crate::specs::Plain::plain_number, crate::specs::Plain::open_plain_call, crate::specs::Plain::plain_call))]

ghost use Rattle.std.specs.Prelude.{◌≡◌};
ghost use Rattle.words.specs.Layouts.{as_eight};
ghost use Rattle.iset.specs.Effects.{output};
ghost use Rattle.iset.specs.Check.{check_number};
ghost use Rattle.iset.specs.Tallies.{tally_answer};
ghost use Rattle.iset.specs.Plain.{open_plain_number, open_plain_call, plain_call};

use crate::{Map, sound_if};
use iter::rules::Query;
use plain::{Tally, scan};
use words::refusal::Refusal;

impl Map {
    // The first refusal of a plain lookup in an opened store (see lib.rt), into an output of
    // `places` places.
    fn test_plain(
        self,
        nodes: &[u64],
        narrow: bool,
        colours: &[u8],
        query: Query,
        places: u64,
    ) -> Result<(), Refusal>
        ensures { check_number result ≡ open_plain_number self (as_eight narrow nodes.now) colours.now query places }
    {
        self.test_start(nodes, narrow, colours, query)?;
        sound_if(self.count <= places, Refusal::ShortOutput)
    }

    // `plain` for an opened store.
    pub fn open_plain_in(
        self,
        nodes: &[u64],
        narrow: bool,
        colours: &[u8],
        query: Query,
        out: &mut [u64],
    ) -> Result<Tally, Refusal>
        ensures { output (tally_answer result) out.new ≡ open_plain_call self (as_eight narrow nodes.now) colours.now query out.old }
    {
        let places = out.len() as u64;
        self.test_plain(nodes, narrow, colours, query, places)?;
        Ok(scan(nodes, narrow, self.count, self.root, query, out))
    }

    // Writes the slots of all entries that the query asks for, in tree order. The output must have
    // a place for every entry.
    pub fn plain_in(
        self,
        nodes: &[u64],
        narrow: bool,
        colours: &[u8],
        query: Query,
        out: &mut [u64],
    ) -> Result<Tally, Refusal>
        ensures { output (tally_answer result) out.new ≡ plain_call self (as_eight narrow nodes.now) colours.now query out.old }
    {
        self.check_in(nodes, narrow, colours)?;
        self.open_plain_in(nodes, narrow, colours, query, out)
    }
}
