// Unloads a range: removes every entry that intersects it.
#![tactic(auto, using(words::proofs::Refusals::number_pos, crate::proofs::Lookups::startable), unfolding(crate::specs::Unload::open_unload_call, crate::specs::Unload::unload_call, crate::specs::Lookup::start_number))]

ghost use Rattle.std.specs.Prelude.{◌≡◌, Ok, ◌≤◌};
ghost use Rattle.words.specs.Layouts.{as_eight, HoldsIn};
ghost use Rattle.words.specs.Nodes.{HoldsBits};
ghost use Rattle.iset.specs.Effects.{effect};
ghost use Rattle.iset.specs.Maps.{raised_by};
ghost use Rattle.iset.specs.Unload.{unload_answer, unload_range_lem, open_unload_call, unload_call};

use crate::Map;
use iter::ranges::by_rule;
use iter::rules::Query;
use unload_core::unload_from;
use words::interval::Span;
use words::refusal::Refusal;

// The map without the entries that went, and how many these were.
#[derive(Clone, Copy)]
pub struct Unloaded {
    pub map: Map,
    pub gone: u64,
}

// Returns the version of a map after some changes more. After the greatest one comes 0.
fn later_version(version: u32, changes: u64) -> u32
    requires { changes ≤ 65535 }
    ensures { result ≡ raised_by version changes }
{
    version.wrapping_add(changes as u32)
}

impl Map {
    // Unloads a range that is one by its rule.
    fn unload_range(
        self,
        nodes: &mut [u64],
        narrow: bool,
        colours: &mut [u8],
        rule: u64,
        range: Span,
    ) -> Unloaded
        requires { HoldsIn narrow nodes.old self.count × HoldsBits colours.old self.count }
        ensures { effect (unload_answer self (Ok result)) (as_eight narrow nodes.new) colours.new
            ≡ unload_range_lem self (as_eight narrow nodes.old) colours.old rule range }
    {
        let window = by_rule(rule, range);
        let left = unload_from(nodes, narrow, colours, self.count, self.root, window);
        let gone = self.count - left.count;
        Unloaded {
            map: Map {
                count: left.count,
                root: left.root,
                version: later_version(self.version, gone),
            },
            gone,
        }
    }

    // `unload` for an opened store.
    pub fn open_unload_in(
        self,
        nodes: &mut [u64],
        narrow: bool,
        colours: &mut [u8],
        rule: u64,
        range: Span,
    ) -> Result<Unloaded, Refusal>
        ensures { effect (unload_answer self result) (as_eight narrow nodes.new) colours.new
            ≡ open_unload_call self (as_eight narrow nodes.old) colours.old rule range }
    {
        let query = Query::Ruled(rule, range);
        self.test_start(nodes, narrow, colours, query)?;
        Ok(self.unload_range(nodes, narrow, colours, rule, range))
    }

    // Removes every entry that intersects the range by the rule of a number, 1 or 2, always the
    // first one in tree order. The others keep their order, and may change slot.
    pub fn unload_in(
        self,
        nodes: &mut [u64],
        narrow: bool,
        colours: &mut [u8],
        rule: u64,
        range: Span,
    ) -> Result<Unloaded, Refusal>
        ensures { effect (unload_answer self result) (as_eight narrow nodes.new) colours.new
            ≡ unload_call self (as_eight narrow nodes.old) colours.old rule range }
    {
        self.check_in(nodes, narrow, colours)?;
        self.open_unload_in(nodes, narrow, colours, rule, range)
    }
}
