// Tickets: a slot with the version of the map that it was taken from. Reading through a ticket
// returns the slot's entry, or refuses if the map has changed since.
#![tactic(auto, using(words::proofs::Refusals::number_pos, crate::proofs::Readings::readable), unfolding(crate::specs::Ticket::ticket_number, crate::specs::Ticket::open_read_number, crate::specs::Ticket::read_number_lem, crate::specs::Ticket::open_read_call, crate::specs::Ticket::read_call))]

ghost use Rattle.std.specs.Prelude.{◌≡◌};
ghost use Rattle.words.specs.Layouts.{as_eight};
ghost use Rattle.iset.specs.Check.{check_number};
ghost use Rattle.iset.specs.Ticket.{ticket_of, age, ticket_number, open_read_number, read_answer, open_read_call, read_call};

use crate::{Map, sound_if};
use words::node::{Entry, entry_of};
use words::refusal::Refusal;

// A slot and the version that the map had when the ticket was taken.
#[derive(Clone, Copy)]
pub struct Ticket {
    pub slot: u64,
    pub version: u32,
}

// Returns how many changes lie between two versions, modulo 2^32.
#[tactic(auto, unfolding(crate::specs::Ticket::age))]
fn distance(now: u32, taken: u32) -> u32
    ensures { result ≡ age now taken }
{
    now.wrapping_sub(taken)
}

impl Map {
    // Returns a ticket for a slot. The slot is tested when the ticket is used.
    pub fn ticket(self, slot: u64) -> Ticket
        ensures { result ≡ ticket_of self slot }
    {
        Ticket {
            slot,
            version: self.version,
        }
    }

    // The first refusal of a ticket: Stale, then NoSuch.
    fn test_ticket(self, ticket: Ticket) -> Result<(), Refusal>
        ensures { check_number result ≡ ticket_number self ticket }
    {
        sound_if(distance(self.version, ticket.version) == 0, Refusal::Stale)?;
        sound_if(ticket.slot < self.count, Refusal::NoSuch)
    }

    // The first refusal of a reading in an opened store (see lib.rt).
    fn test_read(
        self,
        nodes: &[u64],
        narrow: bool,
        colours: &[u8],
        ticket: Ticket,
    ) -> Result<(), Refusal>
        ensures { check_number result ≡ open_read_number self (as_eight narrow nodes.now) colours.now ticket }
    {
        self.test_count(nodes, narrow, colours)?;
        self.test_ticket(ticket)
    }

    // `read` for an opened store.
    pub fn open_read_in(
        self,
        nodes: &[u64],
        narrow: bool,
        colours: &[u8],
        ticket: Ticket,
    ) -> Result<Entry, Refusal>
        ensures { read_answer result ≡ open_read_call self (as_eight narrow nodes.now) colours.now ticket }
    {
        self.test_read(nodes, narrow, colours, ticket)?;
        Ok(entry_of(nodes, narrow, ticket.slot))
    }

    // Returns the entry of a ticket's slot. The ticket is refused as Stale if the map has changed
    // at least once, and fewer than 2^32 times, since it was taken. After exactly 2^32 changes it
    // can pass.
    pub fn read_in(
        self,
        nodes: &[u64],
        narrow: bool,
        colours: &[u8],
        ticket: Ticket,
    ) -> Result<Entry, Refusal>
        ensures { read_answer result ≡ read_call self (as_eight narrow nodes.now) colours.now ticket }
    {
        self.check_in(nodes, narrow, colours)?;
        self.open_read_in(nodes, narrow, colours, ticket)
    }
}
