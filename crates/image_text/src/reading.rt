// Reads a text into an image. The text is words, numbered from 0 without regard to its lines:
// `count`, the count, `root`, the root, and then eight words for each slot. After the fourth word
// and after the last one of each slot comes a line end, after any other word one space.
ghost use Rattle.std.specs.Prelude.{◌≡◌, true, ◌+◌, ◌-◌, ◌*◌, ◌/◌, ◌%◌, ◌<◌, ◌≤◌, length, take};
ghost use Rattle.image_rule.specs.Layout.{image_length_lem};
ghost use Rattle.image_text.specs.Reading.{stage, begun, next_of, refused_of, end_of, room_for, framed, framed_in, named, counted, rooted};
ghost use Rattle.image_text.specs.Reading.{numbered, entry_field_lem, link_field_lem, colour_field_lem, field, row_item_lem, head_item_lem, item, longer, stepped, fed, is_complete, last_of, outcome_of, judged_as};

use crate::judging::check;
use crate::word::Word;
use bitvec::put_bit;
use image::layout::image_length;
use image::write::put_header;
use little::{put_u32, put_u64};
use words::refusal::Refusal;

const LINE_END: u8 = 10;

const SPACE: u8 = 32;

// The names of a text: a 1 and then their letters, as digits of base 256.
const COUNT: u64 = 1526583357044;

const ROOT: u64 = 6214872948;

const RED: u64 = 24274276;

const BLACK: u64 = 1522236744555;

// The word so far, its number in the text, the count, and whether the words before it are right, or
// the first refusal.
#[derive(Clone, Copy)]
pub struct State {
    word: Word,
    place: u64,
    count: u64,
    checked: Result<(), Refusal>,
}

// Returns the byte that ends a word.
fn end_of(place: u64) -> u8
    ensures { result ≡ end_of place }
{
    if place % 8 == 3 { LINE_END } else { SPACE }
}

// Whether `len` bytes have room for the image of `count` entries.
fn has_room(count: u64, len: usize) -> bool
    ensures { result ≡ room_for count len }
{
    if 65535 < count {
        false
    } else {
        image_length(count) <= len as u64
    }
}

// Writes count, root and table of contents, and clears the last byte, which may have spare bits.
fn frame(image: &mut [u8], count: u64, root: u64)
    requires { (count ≤ 65535) × (image_length_lem count ≤ length image.old) }
    ensures { image.new ≡ framed image.old count root }
{
    let last = image_length(count) - 1;
    image[last as usize] = 0;
    put_header(image, count, root);
}

// What the image of a whole text comes to: its length, if it is accepted.
fn judge_image(image: &[u8]) -> Result<usize, Refusal>
    ensures { result ≡ judged_as image.now }
{
    check(image)?;
    Ok(image.len())
}

impl State {
    // The state before any text.
    pub fn new() -> State
        ensures { result ≡ begun }
    {
        State {
            word: Word::Empty,
            place: 0,
            count: 0,
            checked: Ok(()),
        }
    }

    fn refuse(self, why: Refusal) -> State
        ensures { result ≡ refused_of self why }
    {
        let word = self.word;
        State {
            word,
            place: self.place,
            count: self.count,
            checked: Err(why),
        }
    }

    // The word was right, and the next one begins.
    fn next(self, count: u64) -> State
        requires { self.place + 1 < 18446744073709551616 }
        ensures { result ≡ next_of self count }
    {
        let checked = self.checked;
        State {
            word: Word::Empty,
            place: self.place + 1,
            count,
            checked,
        }
    }

    // The word must be this name.
    fn named(self, name: u64) -> State
        requires { self.place + 1 < 18446744073709551616 }
        ensures { result ≡ named self name }
    {
        let word = self.word;
        if word.is_name(name) {
            self.next(self.count)
        } else {
            self.refuse(Refusal::BadList)
        }
    }

    // The word must be the count.
    fn counted(self) -> State
        requires { self.place + 1 < 18446744073709551616 }
        ensures { result ≡ counted self }
    {
        let word = self.word;
        match word.small() {
            Some(n) => self.next(n),
            None => self.refuse(Refusal::BadList),
        }
    }

    // The root is read, and with it the first line. The image must have room for the count.
    fn framed(self, root: u64, image: &mut [u8]) -> State
        requires { self.place + 1 < 18446744073709551616 }
        ensures { stage result image.new ≡ framed_in self root image.old }
    {
        let count = self.count;
        if has_room(count, image.len()) {
            frame(image, count, root);
            self.next(count)
        } else {
            self.refuse(Refusal::NoRoom)
        }
    }

    // The word must be the root.
    fn rooted(self, image: &mut [u8]) -> State
        requires { self.place + 1 < 18446744073709551616 }
        ensures { stage result image.new ≡ rooted self image.old }
    {
        let word = self.word;
        match word.link() {
            Some(root) => self.framed(root, image),
            None => self.refuse(Refusal::BadList),
        }
    }

    // A word of the first line.
    fn head_item(self, image: &mut [u8]) -> State
        requires { self.place < 4 }
        ensures { stage result image.new ≡ head_item_lem self image.old }
    {
        if self.place == 0 {
            self.named(COUNT)
        } else if self.place == 1 {
            self.counted()
        } else if self.place == 2 {
            self.named(ROOT)
        } else {
            self.rooted(image)
        }
    }

    // The word must be the slot's number.
    fn numbered(self, slot: u64) -> State
        requires { self.place + 1 < 18446744073709551616 }
        ensures { result ≡ numbered self slot }
    {
        let word = self.word;
        if word.small() == Some(slot) {
            self.next(self.count)
        } else {
            self.refuse(Refusal::BadList)
        }
    }

    // The word must be a number of the slot's entry: its start at j = 1, its end, its value.
    fn entry_field(self, slot: u64, j: u64, image: &mut [u8]) -> State
        requires { (self.place + 1 < 18446744073709551616) × (0 < j) × (j < 4) × (slot < 65535) × (44 + slot * 24 + 24 ≤ length image.old) }
        ensures { stage result image.new ≡ entry_field_lem self slot j image.old }
    {
        let word = self.word;
        let Some(x) = word.number() else {
            return self.refuse(Refusal::BadList);
        };
        put_u64(image, (44 + slot * 24 + (j - 1) * 8) as usize, x);
        self.next(self.count)
    }

    // The word must be a link of the slot: the left one at j = 4, the right one, the parent.
    fn link_field(self, slot: u64, j: u64, image: &mut [u8]) -> State
        requires { (self.place + 1 < 18446744073709551616) × (4 ≤ j) × (j < 7) × (slot < self.count) × (self.count ≤ 65535) × (image_length_lem self.count ≤ length image.old) }
        ensures { stage result image.new ≡ link_field_lem self slot j image.old }
    {
        let word = self.word;
        let Some(link) = word.link() else {
            return self.refuse(Refusal::BadList);
        };
        put_u32(
            image,
            (44 + self.count * 24 + slot * 12 + (j - 4) * 4) as usize,
            link,
        );
        self.next(self.count)
    }

    // The word must be the slot's colour.
    fn colour_field(self, slot: u64, image: &mut [u8]) -> State
        requires { (self.place + 1 < 18446744073709551616) × (slot < self.count) × (self.count ≤ 65535) × (image_length_lem self.count ≤ length image.old) }
        ensures { stage result image.new ≡ colour_field_lem self slot image.old }
    {
        let word = self.word;
        let red = word.is_name(RED);
        let black = word.is_name(BLACK);
        if red | black {
            put_bit(image, ((44 + self.count * 36) * 8 + slot) as usize, red);
            self.next(self.count)
        } else {
            self.refuse(Refusal::BadList)
        }
    }

    // The word j of a slot.
    fn field(self, slot: u64, j: u64, image: &mut [u8]) -> State
        requires { (self.place + 1 < 18446744073709551616) × (j < 8) × (slot < self.count) × (self.count ≤ 65535) × (image_length_lem self.count ≤ length image.old) }
        ensures { stage result image.new ≡ field self slot j image.old }
    {
        if j == 0 {
            self.numbered(slot)
        } else if j < 4 {
            self.entry_field(slot, j, image)
        } else if j < 7 {
            self.link_field(slot, j, image)
        } else {
            self.colour_field(slot, image)
        }
    }

    // A word after the first line. There must be a slot for it.
    fn row_item(self, image: &mut [u8]) -> State
        requires { 4 ≤ self.place }
        ensures { stage result image.new ≡ row_item_lem self image.old }
    {
        let count = self.count;
        let slot = (self.place - 4) / 8;
        if has_room(count, image.len()) {
            if slot < count {
                self.field(slot, (self.place - 4) % 8, image)
            } else {
                self.refuse(Refusal::BadList)
            }
        } else {
            self.refuse(Refusal::NoRoom)
        }
    }

    // The word is complete.
    fn item(self, image: &mut [u8]) -> State
        ensures { stage result image.new ≡ item self image.old }
    {
        if self.place < 4 {
            self.head_item(image)
        } else {
            self.row_item(image)
        }
    }

    // Takes one more byte of the word.
    fn more(&mut self, b: u8)
        ensures { self.new ≡ longer self.old b }
    {
        self.word = self.word.byte(b);
    }

    // Takes one more byte of the text.
    fn byte(&mut self, b: u8, image: &mut [u8])
        ensures { stage self.new image.new ≡ stepped (stage self.old image.old) b }
    {
        if self.checked.is_ok() {
            if b == end_of(self.place) {
                *self = self.item(image);
            } else {
                self.more(b);
            }
        }
    }

    // Takes one more piece of the text, which may begin and end anywhere.
    pub fn feed(self, piece: &[u8], image: &mut [u8]) -> State
        ensures { stage result image.new ≡ fed (stage self image.old) piece.now }
    {
        let mut state = self;
        for &b in piece {
            state.byte(b, image);
        }
        state
    }

    // Ends the last line, if its end is missing.
    fn end_last(self, image: &mut [u8]) -> State
        ensures { stage result image.new ≡ last_of (stage self image.old) }
    {
        let mut state = self;
        if !state.word.is_new() {
            state.byte(LINE_END, image);
        }
        state
    }

    // Whether all slots are read.
    fn is_complete(self, len: usize) -> bool
        ensures { result ≡ is_complete self len }
    {
        let word = self.word;
        let count = self.count;
        if has_room(count, len) {
            word.is_new() & (self.place == 4 + count * 8)
        } else {
            false
        }
    }

    // Judges the image, if all slots are read.
    fn judged(self, image: &[u8]) -> Result<usize, Refusal>
        ensures { result ≡ outcome_of (stage self image.now) }
    {
        self.checked?;
        if self.is_complete(image.len()) {
            let n = image_length(self.count) as usize;
            judge_image(&image[..n])
        } else {
            Err(Refusal::BadList)
        }
    }

    // Ends the text. If it is accepted, its image is at the front of the slice, and the image's length
    // is returned.
    pub fn finish(self, image: &mut [u8]) -> Result<usize, Refusal>
        ensures { (result ≡ outcome_of (last_of (stage self image.old))) × (image.new ≡ (last_of (stage self image.old)).image) }
    {
        let state = self.end_last(image);
        state.judged(image)
    }
}
