// What stays from line to line.
use crate::refused::Refused;
use iset::ticket::Ticket;
use iset::{Bound, Cursor, Drained, Entry, Map, Query, Refusal, Span};
use lines::streams::Streams;
use slotshell_draw::marks::{Lookup, Marks};
use slotshell_view::nodes::View;

// The map and its store, with room for 256 entries; the saved image, and how many bytes it has, 0
// if none was saved; the tickets, and how many were taken; and what a picture marks.
#[derive(Drop)]
pub(crate) struct Shell<'a> {
    pub streams: &'a Streams,
    pub map: Map,
    pub nodes: [u64; 2048],
    pub colours: [u8; 32],
    pub image: [u8; 9292],
    pub saved: usize,
    pub tickets: [Option<Ticket>; 256],
    pub taken: usize,
    pub marks: Marks,
}

// Room for the image of 256 entries.
pub(crate) fn image_space() -> [u8; 9292] {
    [0; 9292]
}

// The first places of a list.
pub(crate) fn front(list: &[u64], places: u64) -> &[u64] {
    let n = list.len().min(places as usize);
    &list[..n]
}

impl<'a> Shell<'a> {
    pub(crate) fn new(streams: &'a Streams) -> Shell<'a> {
        Shell {
            streams,
            map: Map::new(),
            nodes: [0; 2048],
            colours: [0; 32],
            image: image_space(),
            saved: 0,
            tickets: [None; 256],
            taken: 0,
            marks: Marks::new(),
        }
    }

    // Notes a lookup. A link that leads to no slot starts no walk.
    pub(crate) fn looked(&mut self, from: Option<u64>, query: Query) {
        self.marks.lookup = from.map(|from| Lookup { from, query });
    }

    pub(crate) fn read(&self, ticket: Ticket) -> Result<Entry, Refusal> {
        self.map.read(&self.nodes, &self.colours, ticket)
    }

    // The entry of a slot, read through a ticket. A refused reading, which cannot be below the
    // count, gives zeros.
    pub(crate) fn entry_at(&self, slot: u64) -> Entry {
        self.read(self.map.ticket(slot)).unwrap_or(Entry {
            start: 0,
            end: 0,
            value: 0,
        })
    }

    // Drains a lookup, and returns the slots of its hits beside its work.
    pub(crate) fn drain<'b>(
        &self,
        query: Query,
        cursor: Cursor,
        room: &'b mut [u64],
    ) -> Result<(Drained, &'b [u64]), Refusal> {
        let drained = self
            .map
            .drain(&self.nodes, &self.colours, query, cursor, 0, room)?;
        Ok((drained, front(room, drained.hits)))
    }

    // The slots of all entries in tree order, as a plain lookup finds them.
    pub(crate) fn in_order<'b>(&self, room: &'b mut [u64]) -> &'b [u64] {
        let everything = Query::Overlap(Span {
            lo: Bound::Unbounded,
            hi: Bound::Unbounded,
        });
        let looked = self.map.plain(&self.nodes, &self.colours, everything, room);
        match looked {
            Ok(tally) => front(room, tally.hits),
            Err(_) => &[],
        }
    }

    // The view of the map in an image that is written now. A refusal, which the shell's map never
    // meets, gives an empty image.
    pub(crate) fn view<'b>(&self, room: &'b mut [u8]) -> View<'b> {
        let written = self.map.write_image(&self.nodes, &self.colours, room);
        let n = room.len().min(written.unwrap_or(0) as usize);
        View {
            image: &room[..n],
            count: self.map.count,
            root: self.map.root,
        }
    }
}
