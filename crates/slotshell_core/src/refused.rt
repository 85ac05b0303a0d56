// A refusal, which changes nothing.
use disjoint::insert::Blocked;
use iset::Refusal;
use lines::streams::Streams;
use slotshell_text::refusal::say_refused;

// Why a call was refused, and the numbers that belong to the words.
#[derive(Clone, Copy)]
pub(crate) struct Refused {
    pub why: Refusal,
    pub numbers: [u64; 2],
}

impl Refused {
    pub(crate) fn at_slot(why: Refusal, slot: u64) -> Refused {
        Refused {
            why,
            numbers: [slot, 0],
        }
    }

    pub(crate) fn say(self, streams: &Streams) {
        say_refused(streams, self.why, &self.numbers);
    }
}

impl From<Refusal> for Refused {
    fn from(why: Refusal) -> Refused {
        Refused::at_slot(why, 0)
    }
}

impl From<Blocked> for Refused {
    fn from(blocked: Blocked) -> Refused {
        Refused::at_slot(blocked.why, blocked.slot)
    }
}
