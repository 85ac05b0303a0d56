// Writes the numbers of an answer, in the order that include/iset.h declares.
ghost use Rattle.std.specs.Prelude.{◌≡◌, ◌≤◌, ℕ, List, length};
ghost use Rattle.iter.specs.Drains.{filled};
ghost use Rattle.iset_c.specs.Replies.{refusal_of, written, map_numbers, removed_numbers, inserted_numbers, unloaded_numbers, entry_numbers_lem, length_numbers, cursor_numbers, step_numbers, found_numbers, drain_numbers, tally_numbers};

use iset::insert::Inserted;
use iset::remove::Removed;
use iset::unload::Unloaded;
use iset::{Cursor, Drained, Entry, Map, Refusal, Step, Tally};
use words::ix::U;

// Writes the numbers to the front of the answer. Places past them are unchanged.
#[tactic(auto, unfolding(iter::specs::Drains::filled))]
pub fn put(numbers: &[u64], answer: &mut [u64])
    requires { length numbers.now ≤ length answer.old }
    ensures { answer.new ≡ filled numbers.now answer.old }
{
    answer[..numbers.len()].copy_from_slice(numbers);
}

// What a call returns if it is not refused.
pub trait Returned {
    ghost numbers: { Self → List ℕ };

    // Writes its numbers to the front of the answer.
    fn put(self, answer: &mut [u64])
        requires { length (numbers self) ≤ length answer.old }
        ensures { answer.new ≡ filled (numbers self) answer.old };
}

impl Returned for Map {
    ghost numbers = { map_numbers };

    fn put(self, answer: &mut [u64]) {
        let numbers = [self.count, self.root, self.version as u64];
        put(&numbers, answer);
    }
}

impl Returned for Removed {
    ghost numbers = { λ g. removed_numbers g.value g.map g.pairs g.reach };

    fn put(self, answer: &mut [u64]) {
        let numbers = [
            self.value,
            self.map.count,
            self.map.root,
            self.pairs.first.old,
            self.pairs.first.new,
            self.pairs.second.old,
            self.pairs.second.new,
            self.pairs.third.old,
            self.pairs.third.new,
            self.reach,
            self.map.version as u64,
        ];
        put(&numbers, answer);
    }
}

impl Returned for Inserted {
    ghost numbers = { λ a. inserted_numbers a.map a.slot a.reach };

    fn put(self, answer: &mut [u64]) {
        let Inserted { map, slot, reach } = self;
        let numbers = [map.count, map.root, slot, reach, map.version as u64];
        put(&numbers, answer);
    }
}

impl Returned for Unloaded {
    ghost numbers = { λ g. unloaded_numbers g.map g.gone };

    fn put(self, answer: &mut [u64]) {
        let Unloaded { map, gone } = self;
        let numbers = [map.count, map.root, map.version as u64, gone];
        put(&numbers, answer);
    }
}

impl Returned for Entry {
    ghost numbers = { entry_numbers_lem };

    fn put(self, answer: &mut [u64]) {
        let numbers = [self.start, self.end, self.value];
        put(&numbers, answer);
    }
}

// The length of an image.
impl Returned for u64 {
    ghost numbers = { length_numbers };

    fn put(self, answer: &mut [u64]) {
        let numbers = [self];
        put(&numbers, answer);
    }
}

impl Returned for Cursor {
    ghost numbers = { cursor_numbers };

    fn put(self, answer: &mut [u64]) {
        let numbers = [self.slot, self.levels, self.bits];
        put(&numbers, answer);
    }
}

fn put_found(slot: u64, next: Cursor, entered: u64, answer: &mut [u64])
    requires { 5 ≤ length answer.old }
    ensures { answer.new ≡ filled (step_numbers slot next entered) answer.old }
{
    let numbers = [slot, next.slot, next.levels, next.bits, entered];
    put(&numbers, answer);
}

impl Returned for Step {
    ghost numbers = { found_numbers };

    fn put(self, answer: &mut [u64]) {
        match self {
            Step::Hit(next, entered) => put_found(next.slot, next, entered, answer),
            Step::End(entered) => put_found(U, Cursor::ended(), entered, answer),
        }
    }
}

impl Returned for Drained {
    ghost numbers = { λ d. drain_numbers d.hits d.entered d.next };

    fn put(self, answer: &mut [u64]) {
        let Drained {
            hits,
            entered,
            next,
        } = self;
        let numbers = [hits, entered, next.slot, next.levels, next.bits];
        put(&numbers, answer);
    }
}

impl Returned for Tally {
    ghost numbers = { λ t. tally_numbers t.hits t.entered };

    fn put(self, answer: &mut [u64]) {
        let numbers = [self.hits, self.entered];
        put(&numbers, answer);
    }
}

// Writes the numbers of what a call returned, unless it was refused. Returns the refusal's number,
// or 0 if there is none.
pub fn answered<T: Returned>(returned: Result<T, Refusal>, answer: &mut [u64]) -> u64
    requires { (x : T) → length (T.numbers x) ≤ length answer.old }
    ensures number { result ≡ refusal_of returned }
    ensures answer { answer.new ≡ written T.numbers returned answer.old }
{
    match returned {
        Ok(x) => {
            x.put(answer);
            0
        }
        Err(why) => why.number(),
    }
}
