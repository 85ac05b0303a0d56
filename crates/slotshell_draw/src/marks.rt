// What a picture marks: the entries that the last change moved or added, and the nodes that a
// lookup after it entered.
ghost use Rattle.std.specs.Prelude.{◌≡◌, None, get_or, replicate};

use crate::lists::slot_space;
use iter::rules::Query;
use slotshell_text::note::Change;
use slotshell_view::nodes::View;

// A lookup: the slot where its walk starts, and its query.
#[derive(Clone, Copy)]
pub struct Lookup {
    pub from: u64,
    pub query: Query,
}

// At the place of each slot the old slot of its entry, if the last change moved it; the slot of the
// entry that the change added; and the last lookup after it.
#[derive(Clone, Copy)]
pub struct Marks {
    pub was: [Option<u64>; 256],
    pub added: Option<u64>,
    pub lookup: Option<Lookup>,
}

impl Marks {
    // No marks.
    pub fn new() -> Marks
        ensures { result ≡ record { was = replicate 256 None; added = None; lookup = None } }
    {
        Marks {
            was: [None; 256],
            added: None,
            lookup: None,
        }
    }

    // The old slot of the entry in a slot, if the last change moved it.
    pub fn old_slot(&self, slot: u64) -> Option<u64>
        ensures { result ≡ get_or self.now.was slot None }
    {
        self.was.get(slot as usize).copied().flatten()
    }

    // What the last change did to the entry in a slot.
    pub(crate) fn change_at(&self, slot: u64) -> Option<Change> {
        if self.added == Some(slot) {
            return Some(Change::New);
        }
        self.old_slot(slot).map(Change::From)
    }

    // Whether anything is marked that a change did.
    pub(crate) fn has_change(&self) -> bool {
        self.added.is_some() || self.was.iter().any(|old| old.is_some())
    }

    // The nodes that the last lookup entered.
    pub(crate) fn entered(&self, view: View) -> [u64; 256] {
        let mut entered = slot_space();
        if let Some(lookup) = self.lookup {
            view.trail_of(lookup.query, lookup.from, &mut entered);
        }
        entered
    }
}
