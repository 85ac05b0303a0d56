// Reading through a ticket: a slot with the version that the map had when the ticket was taken.
ghost use Rattle.std.specs.Prelude.{◌≡◌, []};
ghost use Rattle.words.specs.Layouts.{as_eight};
ghost use Rattle.iset.specs.Maps.{map_at};
ghost use Rattle.iset_c.specs.Replies.{exit, ticket_at_lem, read_exit};

use crate::SHORT_ANSWER;
use crate::answer::answered;
use iset::Map;
use iset::ticket::Ticket;

// Reads the entry of a slot, if the map has not changed since version `taken`. Answer: start, end,
// value.
pub fn read_in(
    count: u64,
    root: u64,
    version: u32,
    nodes: &[u64],
    narrow: bool,
    colours: &[u8],
    slot: u64,
    taken: u32,
    answer: &mut [u64],
) -> u64
    ensures { exit result answer.new []
        ≡ read_exit answer.old (map_at count root version) (as_eight narrow nodes.now) colours.now (ticket_at_lem slot taken) }
{
    if answer.len() < 3 {
        return SHORT_ANSWER;
    }
    let map = Map {
        count,
        root,
        version,
    };
    let ticket = Ticket {
        slot,
        version: taken,
    };
    answered(map.read_in(nodes, narrow, colours, ticket), answer)
}
