// The settings: the store, its version and its layout, the bytes of the bit calls and of images,
// and `commit`, which takes over what the last request left.
use crate::given;
use crate::room::{MOST_COLOURS, MOST_WORDS, Stored, copy_front};
use crate::session::{Left, MOST_BYTES, Session};
use iset::Map;

#[derive(Clone, Copy)]
pub enum Call<'a> {
    Store {
        count: u64,
        root: u64,
        words: &'a [u64],
        colours: &'a [u64],
    },
    Bytes(&'a [u64]),
    Commit,
    Version(u32),
    Layout {
        narrow: bool,
    },
}

// `COUNT ROOT LIST LIST`
fn store_of(numbers: &[u64]) -> Option<Call<'_>> {
    let [count, root, lists @ ..] = numbers else {
        return None;
    };
    let (words, rest) = given::split_list(lists)?;
    let colours = given::whole_bytes(rest, MOST_COLOURS)?;
    if MOST_WORDS < words.len() {
        return None;
    }
    Some(Call::Store {
        count: *count,
        root: *root,
        words,
        colours,
    })
}

// The setting with the name and the numbers. That of a layout says how many words a node has.
pub(crate) fn named<'a>(name: &[u8], numbers: &'a [u64]) -> Option<Call<'a>> {
    match (name, numbers) {
        (b"store ", _) => store_of(numbers),
        (b"bytes ", _) => given::whole_bytes(numbers, MOST_BYTES).map(Call::Bytes),
        (b"commit", []) => Some(Call::Commit),
        (b"version ", [v]) => Some(Call::Version(given::version(*v)?)),
        (b"layout ", [6]) => Some(Call::Layout { narrow: true }),
        (b"layout ", [8]) => Some(Call::Layout { narrow: false }),
        _ => None,
    }
}

// Puts numbers at the front of the bytes. Each of them is below 256.
fn put_bytes(bytes: &mut [u8], numbers: &[u64]) {
    for (b, x) in bytes.iter_mut().zip(numbers) {
        *b = u8::try_from(*x).unwrap_or(0);
    }
}

fn commit(s: &mut Session) {
    match s.left {
        None => {}
        Some(Left::Store { stored, .. }) => {
            s.store.copy_store(&s.copy, stored);
            s.stored = stored;
        }
        Some(Left::Bytes(n)) => {
            copy_front(&mut s.bytes, &s.new_bytes, n);
            s.count = n;
        }
    }
}

// A setting of the layout that is there changes nothing. After another one there are no words and
// no store that a request left, so that none is read in the wrong layout. Bytes have no layout, so
// those that were given or left stay.
fn set_layout(s: &mut Session, narrow: bool) {
    if narrow == s.stored.narrow {
        return;
    }
    s.stored = Stored::empty(narrow);
    if let Some(Left::Store { .. }) = s.left {
        s.left = None;
    }
}

pub(crate) fn set(s: &mut Session, call: Call) {
    match call {
        Call::Store {
            count,
            root,
            words,
            colours,
        } => {
            copy_front(&mut s.store.words, words, words.len());
            put_bytes(&mut s.store.colours, colours);
            s.stored = Stored {
                map: Map {
                    count,
                    root,
                    version: 0,
                },
                words: words.len(),
                colours: colours.len(),
                ..s.stored
            };
        }
        Call::Bytes(list) => {
            put_bytes(&mut s.bytes, list);
            s.count = list.len();
        }
        Call::Commit => commit(s),
        Call::Version(version) => s.stored.map.version = version,
        Call::Layout { narrow } => set_layout(s, narrow),
    }
}
