// The commands that change one entry, or all: build, insert and remove.
use crate::moved;
use crate::refused::Refused;
use crate::state::Shell;
use iset::insert::Inserted;
use iset::{Entry, Pairs};
use lines::output::send;
use slotshell_draw::marks::Marks;
use slotshell_say::say;
use slotshell_text::entry;
use words::ix::U;

impl Shell<'_> {
    pub(crate) fn build(&mut self, list: &[u64]) -> Result<(), Refused> {
        self.map = self.map.build(&mut self.nodes, &mut self.colours, list)?;
        self.marks = Marks::new();
        send(self.streams, b"built: ");
        self.say_map();
        self.say_slots();
        Ok(())
    }

    fn say_change(&self, reach: u64) {
        say(
            self.streams,
            b"version %, reach %\n",
            &[u64::from(self.map.version), reach],
        );
    }

    pub(crate) fn inserted(&mut self, a: Inserted) {
        self.map = a.map;
        self.marks = Marks {
            added: Some(a.slot),
            ..Marks::new()
        };
        send(self.streams, b"inserted: ");
        self.say_entry(a.slot);
        self.say_change(a.reach);
    }

    pub(crate) fn insert(&mut self, e: Entry) -> Result<(), Refused> {
        let inserted = self.map.insert(
            &mut self.nodes,
            &mut self.colours,
            e.start,
            e.end,
            e.value,
        )?;
        self.inserted(inserted);
        Ok(())
    }

    // Writes the pairs of a removal in their own order.
    fn say_pairs(&self, pairs: Pairs) {
        if pairs.first.new == U {
            entry::say_unmoved(self.streams);
        }
        for pair in [pairs.first, pairs.second, pairs.third] {
            if pair.new != U {
                entry::say_moved(self.streams, pair, self.entry_at(pair.new));
            }
        }
    }

    // The entry is read before it is removed, so that it can be shown.
    pub(crate) fn remove(&mut self, slot: u64) -> Result<(), Refused> {
        let no = |why| Refused::at_slot(why, slot);
        let e = self.read(self.map.ticket(slot)).map_err(no)?;
        let a = self
            .map
            .remove(&mut self.nodes, &mut self.colours, slot)
            .map_err(no)?;
        self.map = a.map;
        self.marks = Marks {
            was: moved::by_pairs(a.pairs),
            ..Marks::new()
        };
        entry::say_removed(
            self.streams,
            slot,
            Entry {
                value: a.value,
                ..e
            },
        );
        self.say_pairs(a.pairs);
        self.say_change(a.reach);
        Ok(())
    }
}
