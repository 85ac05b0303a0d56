// The step: the walk until a hit or the end.
ghost use Rattle.std.specs.Prelude.{◌≡◌, ◌*◌, ◌≤◌, ltb};
ghost use Rattle.words.specs.Layouts.{as_eight, HoldsIn};
ghost use Rattle.iter.specs.Walk.{seek, step, fuel};
ghost use Rattle.iter.specs.Limits.{tested};
ghost use Rattle.iter.specs.Places.{Placed, Known};
ghost use Rattle.iter.specs.Answers.{answer, is_hit_lem};

use crate::Cursor;
use crate::rules::{Lookup, Tests};
use crate::walk::Place;

// What a step returns: a hit with its cursor, which is also the next one, or the end. Both come
// with the number of nodes entered in this call.
#[derive(Clone, Copy)]
pub enum Step {
    Hit(Cursor, u64),
    End(u64),
}

impl Step {
    // Returns the number of nodes entered.
    pub fn entered(self) -> u64
        ensures { result ≡ (answer self).entered }
    {
        match self {
            Step::Hit(_, entered) => entered,
            Step::End(entered) => entered,
        }
    }
}

impl Place {
    // Moves until a hit or the end. `before` is how many nodes were entered so far.
    fn move_to_next<T: Lookup>(
        self,
        nodes: &[u64],
        narrow: bool,
        count: u64,
        lookup: T,
        before: u64,
    ) -> Step
        requires { HoldsIn narrow nodes.now count × (count ≤ 65535) × Placed count self.cursor × Known count self × (before ≤ 1) }
        ensures { (answer result ≡ seek (as_eight narrow nodes.now) count (T.rules lookup (as_eight narrow nodes.now) count) (fuel count) before self.cursor)
            × (is_hit_lem result ≡ ltb (answer result).slot count) }
    {
        let mut place = self;
        let mut entered = before;
        for _ in 0..count * 4 + 1 {
            if count <= place.cursor.slot {
                return Step::End(entered);
            }
            let next = place.walk(nodes, narrow, count, lookup);
            if next.is_hit(nodes, narrow, count, lookup) {
                let hit = next.cursor;
                return Step::Hit(hit, entered);
            }
            entered += next.counted(count);
            place = next;
        }
        Step::End(entered)
    }
}

impl Cursor {
    pub fn step(self, nodes: &[u64], narrow: bool, count: u64, tests: Tests) -> Step
        requires { HoldsIn narrow nodes.now count × (count ≤ 65535) × Placed count self }
        ensures { (answer result ≡ step (as_eight narrow nodes.now) count (tested (as_eight narrow nodes.now) count tests) self)
            × (is_hit_lem result ≡ ltb (answer result).slot count) }
    {
        let place = self.place(count);
        let before = place.counted(count);
        match tests {
            Tests::Within(limits) => place.move_to_next(nodes, narrow, count, limits, before),
            Tests::Equal(x) => place.move_to_next(nodes, narrow, count, x, before),
        }
    }
}
