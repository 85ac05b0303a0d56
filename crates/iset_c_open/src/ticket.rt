// Reading through a ticket: a slot with the version that the map had when the ticket was taken.
ghost use Rattle.std.specs.Prelude.{◌≡◌, []};
ghost use Rattle.words.specs.Layouts.{as_eight};
ghost use Rattle.iset.specs.Maps.{map_at};
ghost use Rattle.iset_c.specs.Replies.{exit, ticket_at_lem};
ghost use Rattle.iset_c_open.specs.Replies.{open_read_exit};

use iset::Map;
use iset::ticket::Ticket;
use iset_c::SHORT_ANSWER;
use iset_c::answer::answered;

// Reads the entry of a slot, if the map has not changed since version `taken`. Answer: start, end,
// value.
pub fn open_read_in(
    count: u64,
    root: u64,
    version: u32,
    nodes: &[u64],
    narrow: bool,
    colours: &[u8],
    slot: u64,
    taken: u32,
    answer: &mut [u64],
) -> u64
    ensures { exit result answer.new []
        ≡ open_read_exit answer.old (map_at count root version) (as_eight narrow nodes.now) colours.now (ticket_at_lem slot taken) }
{
    if answer.len() < 3 {
        return SHORT_ANSWER;
    }
    let map = Map {
        count,
        root,
        version,
    };
    let ticket = Ticket {
        slot,
        version: taken,
    };
    answered(map.open_read_in(nodes, narrow, colours, ticket), answer)
}
