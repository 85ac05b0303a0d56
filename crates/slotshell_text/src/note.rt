// What the last change did to an entry.
use lines::output::send;
use lines::streams::Streams;
use slotshell_say::say;

// The entry is new, or it moved from another slot.
#[derive(Clone, Copy)]
pub enum Change {
    New,
    From(u64),
}

impl Change {
    // Writes that an entry is new, or its old slot.
    pub(crate) fn say(self, streams: &Streams) {
        match self {
            Change::New => send(streams, b"new"),
            Change::From(slot) => say(streams, b"was slot %", &[slot]),
        }
    }
}
