// The commands that look something up: what a lookup finds, how many nodes it enters, and its walk.
// An accepted lookup is kept, so that pictures mark the nodes that it entered.
use crate::refused::Refused;
use crate::state::{Shell, front, image_space};
use iset::{Bound, Interval, Query, Span};
use slotshell_draw::lists::slot_space;
use slotshell_draw::walk::say_walk;
use slotshell_draw::work::say_bounded;
use slotshell_text::work;
use words::ix::slot_at;

impl Shell<'_> {
    fn say_hits(&self, hits: &[u64]) {
        for &slot in hits {
            work::say_hit(self.streams);
            self.say_entry(slot);
        }
    }

    // Notes a lookup from the root.
    fn looked_in_all(&mut self, query: Query) {
        self.looked(slot_at(self.map.root, self.map.count), query);
    }

    // Looks a range up by a drain, and writes each hit and the work.
    pub(crate) fn find(&mut self, range: Span) -> Result<(), Refused> {
        let query = Query::Overlap(range);
        let mut room = slot_space();
        let mut image = image_space();
        let (drained, hits) = self.drain(query, self.map.fresh(), &mut room)?;
        self.say_hits(hits);
        let view = self.view(&mut image);
        say_bounded(self.streams, view, range, drained.hits, drained.entered);
        self.looked_in_all(query);
        Ok(())
    }

    // Looks a range up by a drain, and writes the walk of the lookup.
    pub(crate) fn trace(&mut self, range: Span) -> Result<(), Refused> {
        let query = Query::Overlap(range);
        let mut room = slot_space();
        let mut image = image_space();
        let (drained, _) = self.drain(query, self.map.fresh(), &mut room)?;
        let view = self.view(&mut image);
        say_walk(self.streams, view, range, drained.hits, drained.entered);
        self.looked_in_all(query);
        Ok(())
    }

    // How many nodes a drain enters.
    fn entered_by_drain(&self, query: Query) -> u64 {
        let mut room = slot_space();
        let drained = self.drain(query, self.map.fresh(), &mut room);
        drained.map_or(0, |(drained, _)| drained.entered)
    }

    // How many nodes the fast lookup enters.
    fn entered_by_find_all(&self, query: Query) -> u64 {
        let mut room = slot_space();
        let tally = self
            .map
            .find_all(&self.nodes, &self.colours, query, &mut room);
        tally.map_or(0, |tally| tally.entered)
    }

    // Looks a range up without pruning, and compares the work.
    pub(crate) fn plain(&mut self, range: Span) -> Result<(), Refused> {
        let query = Query::Overlap(range);
        let mut room = slot_space();
        let tally = self
            .map
            .plain(&self.nodes, &self.colours, query, &mut room)?;
        self.say_hits(front(&room, tally.hits));
        let pruned = self.entered_by_drain(query);
        work::say_plain(
            self.streams,
            tally.hits,
            tally.entered,
            pruned,
            tally.entered.saturating_sub(pruned),
            self.entered_by_find_all(query),
        );
        self.looked_in_all(query);
        Ok(())
    }

    // Looks up the entries at an address.
    pub(crate) fn at(&mut self, address: u64) -> Result<(), Refused> {
        self.find(Span {
            lo: Bound::Included(address),
            hi: Bound::Included(address),
        })
    }

    // Looks up the entries equal to an interval, and writes them in tree order.
    pub(crate) fn exact(&mut self, x: Interval) -> Result<(), Refused> {
        let query = Query::Exact(x);
        let cursor = self.map.fresh_exact(&self.nodes, &self.colours, x)?;
        self.looked(slot_at(cursor.slot, self.map.count), query);
        let mut room = slot_space();
        let (drained, hits) = self.drain(query, cursor, &mut room)?;
        self.say_hits(hits);
        work::say_entered(self.streams, drained.hits, drained.entered);
        Ok(())
    }
}
