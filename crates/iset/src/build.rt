// Builds a map from a list of triples start, end, value.
#![tactic(auto, using(crate::proofs::Laws::built, crate::proofs::Layouts::capacity_same, words::proofs::Refusals::number_pos), unfolding(crate::specs::Build::build_number, crate::specs::Build::build_call))]

ghost use Rattle.std.specs.Prelude.{◌≡◌, length};
ghost use Rattle.words.specs.Layouts.{as_eight};
ghost use Rattle.iset.specs.Check.{check_number};
ghost use Rattle.iset.specs.Effects.{effect};
ghost use Rattle.iset.specs.Build.{build_number, build_answer, build_call};

use crate::{Map, next_version, sound_if};
use builder::from_sorted;
use builder::list::{all_proper, sorted};
use words::node::capacity;
use words::refusal::Refusal;

// The first refusal of building a list into node words and `bytes` colour bytes. Each test visits
// the whole list.
fn test_list(list: &[u64], nodes: &[u64], narrow: bool, bytes: usize) -> Result<(), Refusal>
    ensures { check_number result ≡ build_number (length (as_eight narrow nodes.now)) bytes list.now }
{
    let len = list.len();
    sound_if(len % 3 == 0, Refusal::BadList)?;
    sound_if(
        (len / 3) as u64 <= capacity(nodes.len(), narrow, bytes),
        Refusal::NoRoom,
    )?;
    sound_if(all_proper(list), Refusal::BadInterval)?;
    sound_if(sorted(list), Refusal::NotSorted)
}

impl Map {
    // Returns the map of the entries of a list, entry k in slot k, in the place of this map. Of
    // this map only the version is read: the new map has the next one. Slots and colour bits past
    // the entries are unchanged.
    pub fn build_in(
        self,
        nodes: &mut [u64],
        narrow: bool,
        colours: &mut [u8],
        list: &[u64],
    ) -> Result<Map, Refusal>
        ensures { effect (build_answer self result) (as_eight narrow nodes.new) colours.new
            ≡ build_call self (as_eight narrow nodes.old) colours.old list.now }
    {
        test_list(list, nodes, narrow, colours.len())?;
        let n = list.len() / 3;
        let root = from_sorted(list, nodes, narrow, colours, n);
        Ok(Map {
            count: n as u64,
            root,
            version: next_version(self.version),
        })
    }
}
