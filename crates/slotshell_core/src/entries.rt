// Lists of entries, as the public call `read` returns them.
use crate::state::Shell;
use iset::Pair;
use slotshell_say::indent;
use slotshell_text::entry;

impl Shell<'_> {
    // Writes the entry of a slot: `slot 4  [45,60) 5`, and a line's end.
    pub(crate) fn say_entry(&self, slot: u64) {
        entry::say_entry(self.streams, slot, self.entry_at(slot));
    }

    // Writes all slots, one a line.
    pub(crate) fn say_slots(&self) {
        for slot in 0..self.map.count {
            indent(self.streams, 2);
            self.say_entry(slot);
        }
    }

    // Writes a map's own numbers, and a line's end.
    pub(crate) fn say_map(&self) {
        entry::say_map(
            self.streams,
            self.map.count,
            self.map.root,
            self.map.version,
        );
    }

    // Writes the entries that will go.
    pub(crate) fn say_gone(&self, gone: &[u64]) {
        for &slot in gone {
            entry::say_gone(self.streams, slot, self.entry_at(slot));
        }
    }

    // Writes each entry that the last change moved, in the order of a list of slots.
    pub(crate) fn say_moves(&self, order: &[u64]) {
        let mut any = false;
        for &new in order {
            if let Some(old) = self.marks.old_slot(new) {
                entry::say_moved(self.streams, Pair { old, new }, self.entry_at(new));
                any = true;
            }
        }
        if !any {
            entry::say_unmoved(self.streams);
        }
    }

    // Writes each entry that a plan would move, in the order of a list of slots. A plan has, at the
    // place of each slot, its new one.
    pub(crate) fn say_plan(&self, plan: &[u64], order: &[u64]) {
        let mut any = false;
        for &old in order {
            let new = plan.get(old as usize).copied().unwrap_or(old);
            if old != new {
                entry::say_planned(self.streams, Pair { old, new }, self.entry_at(old));
                any = true;
            }
        }
        if !any {
            entry::say_idle_plan(self.streams);
        }
    }
}
