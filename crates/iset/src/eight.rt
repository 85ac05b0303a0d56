// The calls of document 01, for nodes of eight words. Each is the call of either layout, whose name
// ends in `_in`, with `narrow` false.
#![tactic(auto, unfolding(words::specs::Layouts::as_eight))]

ghost use Rattle.std.specs.Prelude.{◌≡◌};
ghost use Rattle.iset.specs.Build.{build_answer, build_call};
ghost use Rattle.iset.specs.Check.{check_number, check_rule};
ghost use Rattle.iset.specs.Effects.{effect, output};
ghost use Rattle.iset.specs.Find.{find_all_call, open_find_all_call};
ghost use Rattle.iset.specs.Image.{open_write_image_call, read_image_call, write_answer, write_image_call};
ghost use Rattle.iset.specs.Insert.{entry_of, insert_answer, insert_call, open_insert_call};
ghost use Rattle.iset.specs.Lookup.{drain_answer, drain_call, open_drain_call, open_start_call, open_step_call, start_answer, start_call, step_answer, step_call};
ghost use Rattle.iset.specs.Plain.{open_plain_call, plain_call};
ghost use Rattle.iset.specs.Remove.{open_remove_call, remove_answer, remove_call};
ghost use Rattle.iset.specs.Tallies.{tally_answer};
ghost use Rattle.iset.specs.Ticket.{open_read_call, read_answer, read_call};
ghost use Rattle.iset.specs.Tidy.{open_propose_call, open_renumber_call, propose_call, renumber_answer, renumber_call};
ghost use Rattle.iset.specs.Unload.{open_unload_call, unload_answer, unload_call};

use crate::Map;
use crate::insert::Inserted;
use crate::remove::Removed;
use crate::ticket::Ticket;
use crate::unload::Unloaded;
use iter::Cursor;
use iter::drain::Drained;
use iter::rules::Query;
use iter::seek::Step;
use plain::Tally;
use words::interval::{Interval, Span};
use words::node::Entry;
use words::refusal::Refusal;

impl Map {
    pub fn check(self, nodes: &[u64], colours: &[u8]) -> Result<(), Refusal>
        ensures { check_number result ≡ check_rule self nodes.now colours.now }
    {
        self.check_in(nodes, false, colours)
    }

    pub fn build(self, nodes: &mut [u64], colours: &mut [u8], list: &[u64]) -> Result<Map, Refusal>
        ensures { effect (build_answer self result) nodes.new colours.new
            ≡ build_call self nodes.old colours.old list.now }
    {
        self.build_in(nodes, false, colours, list)
    }

    pub fn insert(
        self,
        nodes: &mut [u64],
        colours: &mut [u8],
        start: u64,
        end: u64,
        value: u64,
    ) -> Result<Inserted, Refusal>
        ensures { effect (insert_answer self result) nodes.new colours.new
            ≡ insert_call self nodes.old colours.old (entry_of start end value) }
    {
        self.insert_in(nodes, false, colours, start, end, value)
    }

    pub fn open_insert(
        self,
        nodes: &mut [u64],
        colours: &mut [u8],
        start: u64,
        end: u64,
        value: u64,
    ) -> Result<Inserted, Refusal>
        ensures { effect (insert_answer self result) nodes.new colours.new
            ≡ open_insert_call self nodes.old colours.old (entry_of start end value) }
    {
        self.open_insert_in(nodes, false, colours, start, end, value)
    }

    pub fn remove(
        self,
        nodes: &mut [u64],
        colours: &mut [u8],
        slot: u64,
    ) -> Result<Removed, Refusal>
        ensures { effect (remove_answer self result) nodes.new colours.new
            ≡ remove_call self nodes.old colours.old slot }
    {
        self.remove_in(nodes, false, colours, slot)
    }

    pub fn open_remove(
        self,
        nodes: &mut [u64],
        colours: &mut [u8],
        slot: u64,
    ) -> Result<Removed, Refusal>
        ensures { effect (remove_answer self result) nodes.new colours.new
            ≡ open_remove_call self nodes.old colours.old slot }
    {
        self.open_remove_in(nodes, false, colours, slot)
    }

    pub fn unload(
        self,
        nodes: &mut [u64],
        colours: &mut [u8],
        rule: u64,
        range: Span,
    ) -> Result<Unloaded, Refusal>
        ensures { effect (unload_answer self result) nodes.new colours.new
            ≡ unload_call self nodes.old colours.old rule range }
    {
        self.unload_in(nodes, false, colours, rule, range)
    }

    pub fn open_unload(
        self,
        nodes: &mut [u64],
        colours: &mut [u8],
        rule: u64,
        range: Span,
    ) -> Result<Unloaded, Refusal>
        ensures { effect (unload_answer self result) nodes.new colours.new
            ≡ open_unload_call self nodes.old colours.old rule range }
    {
        self.open_unload_in(nodes, false, colours, rule, range)
    }

    pub fn propose(self, nodes: &[u64], colours: &[u8], out: &mut [u64]) -> Result<(), Refusal>
        ensures { output (check_number result) out.new ≡ propose_call self nodes.now colours.now out.old }
    {
        self.propose_in(nodes, false, colours, out)
    }

    pub fn open_propose(self, nodes: &[u64], colours: &[u8], out: &mut [u64]) -> Result<(), Refusal>
        ensures { output (check_number result) out.new ≡ open_propose_call self nodes.now colours.now out.old }
    {
        self.open_propose_in(nodes, false, colours, out)
    }

    pub fn renumber(
        self,
        nodes: &mut [u64],
        colours: &mut [u8],
        plan: &[u64],
    ) -> Result<Map, Refusal>
        ensures { effect (renumber_answer self result) nodes.new colours.new
            ≡ renumber_call self nodes.old colours.old plan.now }
    {
        self.renumber_in(nodes, false, colours, plan)
    }

    pub fn open_renumber(
        self,
        nodes: &mut [u64],
        colours: &mut [u8],
        plan: &[u64],
    ) -> Result<Map, Refusal>
        ensures { effect (renumber_answer self result) nodes.new colours.new
            ≡ open_renumber_call self nodes.old colours.old plan.now }
    {
        self.open_renumber_in(nodes, false, colours, plan)
    }

    pub fn read(self, nodes: &[u64], colours: &[u8], ticket: Ticket) -> Result<Entry, Refusal>
        ensures { read_answer result ≡ read_call self nodes.now colours.now ticket }
    {
        self.read_in(nodes, false, colours, ticket)
    }

    pub fn open_read(self, nodes: &[u64], colours: &[u8], ticket: Ticket) -> Result<Entry, Refusal>
        ensures { read_answer result ≡ open_read_call self nodes.now colours.now ticket }
    {
        self.open_read_in(nodes, false, colours, ticket)
    }

    pub fn fresh_exact(
        self,
        nodes: &[u64],
        colours: &[u8],
        query: Interval,
    ) -> Result<Cursor, Refusal>
        ensures { start_answer result ≡ start_call self nodes.now colours.now query }
    {
        self.fresh_exact_in(nodes, false, colours, query)
    }

    pub fn open_fresh_exact(
        self,
        nodes: &[u64],
        colours: &[u8],
        query: Interval,
    ) -> Result<Cursor, Refusal>
        ensures { start_answer result ≡ open_start_call self nodes.now colours.now query }
    {
        self.open_fresh_exact_in(nodes, false, colours, query)
    }

    pub fn step(
        self,
        nodes: &[u64],
        colours: &[u8],
        query: Query,
        cursor: Cursor,
    ) -> Result<Step, Refusal>
        ensures { step_answer cursor result ≡ step_call self nodes.now colours.now query cursor }
    {
        self.step_in(nodes, false, colours, query, cursor)
    }

    pub fn open_step(
        self,
        nodes: &[u64],
        colours: &[u8],
        query: Query,
        cursor: Cursor,
    ) -> Result<Step, Refusal>
        ensures { step_answer cursor result ≡ open_step_call self nodes.now colours.now query cursor }
    {
        self.open_step_in(nodes, false, colours, query, cursor)
    }

    pub fn drain(
        self,
        nodes: &[u64],
        colours: &[u8],
        query: Query,
        cursor: Cursor,
        limit: u64,
        out: &mut [u64],
    ) -> Result<Drained, Refusal>
        ensures { output (drain_answer cursor result) out.new
            ≡ drain_call self nodes.now colours.now query cursor limit out.old }
    {
        self.drain_in(nodes, false, colours, query, cursor, limit, out)
    }

    pub fn open_drain(
        self,
        nodes: &[u64],
        colours: &[u8],
        query: Query,
        cursor: Cursor,
        limit: u64,
        out: &mut [u64],
    ) -> Result<Drained, Refusal>
        ensures { output (drain_answer cursor result) out.new
            ≡ open_drain_call self nodes.now colours.now query cursor limit out.old }
    {
        self.open_drain_in(nodes, false, colours, query, cursor, limit, out)
    }

    pub fn find_all(
        self,
        nodes: &[u64],
        colours: &[u8],
        query: Query,
        out: &mut [u64],
    ) -> Result<Tally, Refusal>
        ensures { output (tally_answer result) out.new ≡ find_all_call self nodes.now colours.now query out.old }
    {
        self.find_all_in(nodes, false, colours, query, out)
    }

    pub fn open_find_all(
        self,
        nodes: &[u64],
        colours: &[u8],
        query: Query,
        out: &mut [u64],
    ) -> Result<Tally, Refusal>
        ensures { output (tally_answer result) out.new ≡ open_find_all_call self nodes.now colours.now query out.old }
    {
        self.open_find_all_in(nodes, false, colours, query, out)
    }

    pub fn plain(
        self,
        nodes: &[u64],
        colours: &[u8],
        query: Query,
        out: &mut [u64],
    ) -> Result<Tally, Refusal>
        ensures { output (tally_answer result) out.new ≡ plain_call self nodes.now colours.now query out.old }
    {
        self.plain_in(nodes, false, colours, query, out)
    }

    pub fn open_plain(
        self,
        nodes: &[u64],
        colours: &[u8],
        query: Query,
        out: &mut [u64],
    ) -> Result<Tally, Refusal>
        ensures { output (tally_answer result) out.new ≡ open_plain_call self nodes.now colours.now query out.old }
    {
        self.open_plain_in(nodes, false, colours, query, out)
    }

    pub fn write_image(self, nodes: &[u64], colours: &[u8], out: &mut [u8]) -> Result<u64, Refusal>
        ensures { output (write_answer result) out.new ≡ write_image_call self nodes.now colours.now out.old }
    {
        self.write_image_in(nodes, false, colours, out)
    }

    pub fn open_write_image(
        self,
        nodes: &[u64],
        colours: &[u8],
        out: &mut [u8],
    ) -> Result<u64, Refusal>
        ensures { output (write_answer result) out.new ≡ open_write_image_call self nodes.now colours.now out.old }
    {
        self.open_write_image_in(nodes, false, colours, out)
    }

    pub fn read_image(
        self,
        nodes: &mut [u64],
        colours: &mut [u8],
        image: &[u8],
    ) -> Result<Map, Refusal>
        ensures { effect (build_answer self result) nodes.new colours.new
            ≡ read_image_call self nodes.old colours.old image.now }
    {
        self.read_image_in(nodes, false, colours, image)
    }
}
