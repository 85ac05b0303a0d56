// The commands that take a ticket, and read through one.
use crate::refused::Refused;
use crate::state::Shell;
use iset::Refusal;
use iset::ticket::Ticket;
use slotshell_say::say;

impl Shell<'_> {
    // Keeps a ticket, and returns how many there are then, if there is room.
    fn keep(&mut self, ticket: Ticket) -> Option<u64> {
        *self.tickets.get_mut(self.taken)? = Some(ticket);
        self.taken += 1;
        Some(self.taken as u64)
    }

    pub(crate) fn take_ticket(&mut self, slot: u64) -> Result<(), Refused> {
        let ticket = self.map.ticket(slot);
        let number = self.keep(ticket).ok_or(Refusal::NoRoom)?;
        say(
            self.streams,
            b"ticket %: slot % at version %\n",
            &[number, slot, u64::from(ticket.version)],
        );
        Ok(())
    }

    // The ticket of a number, counted from 1.
    fn ticket_of(&self, number: u64) -> Option<Ticket> {
        let place = number.checked_sub(1)?;
        self.tickets.get(place as usize).copied().flatten()
    }

    fn say_missing(&self, number: u64) {
        say(
            self.streams,
            b"there is no ticket %; % were taken\n",
            &[number, self.taken as u64],
        );
    }

    // The refusal of a ticket: with its slot, or the two versions.
    fn no_entry(&self, why: Refusal, ticket: Ticket) -> Refused {
        match why {
            Refusal::Stale => Refused {
                why,
                numbers: [u64::from(ticket.version), u64::from(self.map.version)],
            },
            _ => Refused::at_slot(why, ticket.slot),
        }
    }

    // Reads through the ticket of a number.
    pub(crate) fn read_ticket(&self, number: u64) -> Result<(), Refused> {
        let Some(ticket) = self.ticket_of(number) else {
            self.say_missing(number);
            return Ok(());
        };
        let e = self.read(ticket).map_err(|why| self.no_entry(why, ticket))?;
        say(
            self.streams,
            b"ticket %: slot %  [%,%) %\n",
            &[number, ticket.slot, e.start, e.end, e.value],
        );
        Ok(())
    }
}
