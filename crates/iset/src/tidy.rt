// Numbers the slots anew, so that entries that follow one another in tree order stand in slots that
// do. A plan has, at the place of each old slot, its new one. `propose` plans, and `renumber` takes
// a plan, that one or another.
#![tactic(auto, using(words::proofs::Refusals::number_pos, crate::proofs::Tidyings::proposable, crate::proofs::Tidyings::movable, crate::proofs::Layouts::counted), unfolding(crate::specs::Tidy::open_propose_number, crate::specs::Tidy::propose_number, crate::specs::Tidy::open_propose_call, crate::specs::Tidy::propose_call, crate::specs::Tidy::open_renumber_number, crate::specs::Tidy::renumber_number, crate::specs::Tidy::open_renumber_call, crate::specs::Tidy::renumber_call))]

ghost use Rattle.std.specs.Prelude.{◌≡◌, Ok, true};
ghost use Rattle.words.specs.Layouts.{as_eight, HoldsIn};
ghost use Rattle.words.specs.Nodes.{HoldsBits};
ghost use Rattle.tidy_rule.specs.Plan.{fits};
ghost use Rattle.iset.specs.Effects.{effect, output};
ghost use Rattle.iset.specs.Check.{check_number};
ghost use Rattle.iset.specs.Tidy.{open_propose_number, open_propose_call, propose_call, open_renumber_number, renumber_answer, renumber_plan_lem, open_renumber_call, renumber_call};

use crate::{Map, next_version, sound_if};
use tidy_core::moves::renumber_in;
use tidy_core::plan::names_each;
use tidy_core::planner::number_all;
use words::refusal::Refusal;

impl Map {
    // The first refusal of the planner in an opened store (see lib.rt), for an output of `places`
    // places.
    fn test_propose(
        self,
        nodes: &[u64],
        narrow: bool,
        colours: &[u8],
        places: u64,
    ) -> Result<(), Refusal>
        ensures { check_number result ≡ open_propose_number self (as_eight narrow nodes.now) colours.now places }
    {
        self.test_count(nodes, narrow, colours)?;
        sound_if(self.count <= places, Refusal::ShortOutput)
    }

    // `propose` for an opened store.
    pub fn open_propose_in(
        self,
        nodes: &[u64],
        narrow: bool,
        colours: &[u8],
        out: &mut [u64],
    ) -> Result<(), Refusal>
        ensures { output (check_number result) out.new ≡ open_propose_call self (as_eight narrow nodes.now) colours.now out.old }
    {
        let places = out.len() as u64;
        self.test_propose(nodes, narrow, colours, places)?;
        number_all(nodes, narrow, self.count, self.root, out);
        Ok(())
    }

    // Proposes a plan: writes the place of each slot in tree order, counted from 0. Places of the
    // output from the count up stay unchanged. The plan is the first `count` places.
    pub fn propose_in(
        self,
        nodes: &[u64],
        narrow: bool,
        colours: &[u8],
        out: &mut [u64],
    ) -> Result<(), Refusal>
        ensures { output (check_number result) out.new ≡ propose_call self (as_eight narrow nodes.now) colours.now out.old }
    {
        self.check_in(nodes, narrow, colours)?;
        self.open_propose_in(nodes, narrow, colours, out)
    }

    // The first refusal of a renumbering of an opened store.
    fn test_plan(
        self,
        nodes: &[u64],
        narrow: bool,
        colours: &[u8],
        plan: &[u64],
    ) -> Result<(), Refusal>
        ensures { check_number result ≡ open_renumber_number self (as_eight narrow nodes.now) colours.now plan.now }
    {
        self.test_count(nodes, narrow, colours)?;
        sound_if(names_each(plan, self.count), Refusal::BadPlan)
    }

    // Renumbers by a plan that names each slot below the count once.
    fn renumber_plan(self, nodes: &mut [u64], narrow: bool, colours: &mut [u8], plan: &[u64]) -> Map
        requires { HoldsIn narrow nodes.old self.count × HoldsBits colours.old self.count × (fits self.count plan.now ≡ true) }
        ensures { effect (renumber_answer self (Ok result)) (as_eight narrow nodes.new) colours.new
            ≡ renumber_plan_lem self (as_eight narrow nodes.old) colours.old plan.now }
    {
        let root = renumber_in(nodes, narrow, colours, plan, self.count, self.root);
        Map {
            count: self.count,
            root,
            version: next_version(self.version),
        }
    }

    // `renumber` for an opened store.
    pub fn open_renumber_in(
        self,
        nodes: &mut [u64],
        narrow: bool,
        colours: &mut [u8],
        plan: &[u64],
    ) -> Result<Map, Refusal>
        ensures { effect (renumber_answer self result) (as_eight narrow nodes.new) colours.new
            ≡ open_renumber_call self (as_eight narrow nodes.old) colours.old plan.now }
    {
        self.test_plan(nodes, narrow, colours, plan)?;
        Ok(self.renumber_plan(nodes, narrow, colours, plan))
    }

    // Moves each node, with its colour and its links, to the slot that the plan gives it. The plan
    // must have `count` numbers and name each slot below the count once. The test of a plan takes 8
    // KiB of stack.
    pub fn renumber_in(
        self,
        nodes: &mut [u64],
        narrow: bool,
        colours: &mut [u8],
        plan: &[u64],
    ) -> Result<Map, Refusal>
        ensures { effect (renumber_answer self result) (as_eight narrow nodes.new) colours.new
            ≡ renumber_call self (as_eight narrow nodes.old) colours.old plan.now }
    {
        self.check_in(nodes, narrow, colours)?;
        self.open_renumber_in(nodes, narrow, colours, plan)
    }
}
