// The room for a store, and what a call on the map is lent of it.
use iset::Map;

pub const MOST_WORDS: usize = 32768;

pub const MOST_COLOURS: usize = 512;

// A map, how many node words and colour bytes its store has, and whether its nodes have six words
// (`narrow`) or eight.
#[derive(Clone, Copy)]
pub struct Stored {
    pub map: Map,
    pub words: usize,
    pub colours: usize,
    pub narrow: bool,
}

impl Stored {
    // The empty map, with no words.
    pub(crate) fn empty(narrow: bool) -> Stored {
        Stored {
            map: Map::new(),
            words: 0,
            colours: 0,
            narrow,
        }
    }
}

// A store as it is lent to a call.
#[derive(Drop)]
pub struct Store<'a> {
    pub map: Map,
    pub nodes: &'a mut [u64],
    pub narrow: bool,
    pub colours: &'a mut [u8],
}

// A store's words and its colours are at the front of their room.
#[derive(Drop)]
pub struct Room {
    pub words: [u64; MOST_WORDS],
    pub colours: [u8; MOST_COLOURS],
}

impl Room {
    pub(crate) fn new() -> Room {
        Room {
            words: [0; MOST_WORDS],
            colours: [0; MOST_COLOURS],
        }
    }

    pub(crate) fn lent(&mut self, stored: Stored) -> Store<'_> {
        let Room { words, colours } = self;
        Store {
            map: stored.map,
            nodes: front(words, stored.words),
            narrow: stored.narrow,
            colours: front(colours, stored.colours),
        }
    }

    // Takes over the words and the colours of a store.
    pub(crate) fn copy_store(&mut self, from: &Room, stored: Stored) {
        copy_front(&mut self.words, &from.words, stored.words);
        copy_front(&mut self.colours, &from.colours, stored.colours);
    }
}

// The first n items, as far as there are so many.
pub(crate) fn front<T>(items: &mut [T], n: usize) -> &mut [T] {
    let n = n.min(items.len());
    &mut items[..n]
}

// Copies the first n items, as far as both have so many.
pub(crate) fn copy_front<T: Copy>(to: &mut [T], from: &[T], n: usize) {
    let n = n.min(to.len()).min(from.len());
    to[..n].copy_from_slice(&from[..n]);
}
