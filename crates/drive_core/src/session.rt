// What stays from line to line.
use crate::answer::Output;
use crate::room::{Room, Stored, copy_front};
use iset::Map;

pub const MOST_BYTES: usize = 16384;

// What the last request left, for `commit`: a store in the copy's room, or so many of the new
// bytes, which are those of the bit calls or of an image. `reach` is how many hulls changed, for
// `last`. A slot's hull is the least range that holds all entries of its subtree.
#[derive(Clone, Copy)]
pub enum Left {
    Store { stored: Stored, reach: u64 },
    Bytes(usize),
}

// The store that the settings gave, and the copy of it that the last request worked on; the bytes
// that the line `bytes` gave, of which there are `count`, and those that a bit call or `write`
// left.
#[derive(Drop)]
pub struct Session<'a> {
    pub stored: Stored,
    pub store: Room,
    pub copy: Room,
    pub count: usize,
    pub bytes: [u8; MOST_BYTES],
    pub new_bytes: [u8; MOST_BYTES],
    pub left: Option<Left>,
    pub out: Output<'a>,
}

impl<'a> Session<'a> {
    // What there is before the first line: the empty map, no words, no bytes. A node has eight
    // words.
    pub(crate) fn new(out: Output<'a>) -> Session<'a> {
        Session {
            stored: Stored::empty(false),
            store: Room::new(),
            copy: Room::new(),
            count: 0,
            bytes: [0; MOST_BYTES],
            new_bytes: [0; MOST_BYTES],
            left: None,
            out,
        }
    }
}

impl Session<'_> {
    // What each request on the store begins with: it makes a copy of the store.
    pub(crate) fn begin(&mut self) {
        let stored = self.stored;
        self.copy.copy_store(&self.store, stored);
    }

    // What each request on the store ends with: it prints what differs in the copy. It leaves the
    // copy, with this map, and how many hulls changed.
    pub(crate) fn end(&mut self, map: Map, reach: u64) {
        let stored = Stored { map, ..self.stored };
        self.out.sign();
        self.out
            .changes(&self.store.words, &self.copy.words, stored.words);
        self.out
            .changes(&self.store.colours, &self.copy.colours, stored.colours);
        self.out.end();
        self.left = Some(Left::Store { stored, reach });
    }
}
