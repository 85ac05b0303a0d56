// The drain: it makes steps until the end or a limit of hits.
ghost use Rattle.std.specs.Prelude.{◌≡◌, ◌≤◌, length};
ghost use Rattle.words.specs.Layouts.{as_eight, HoldsIn};
ghost use Rattle.iter.specs.Drains.{drain, filled};
ghost use Rattle.iter.specs.Queries.{rules};
ghost use Rattle.iter.specs.Limits.{tested};
ghost use Rattle.iter.specs.Places.{Placed};
ghost use Rattle.iter.specs.Answers.{summary};

use crate::Cursor;
use crate::rules::{Query, Tests};
use crate::seek::Step;

// What a drain returns: how many hits it wrote, how many nodes its steps entered, and the next
// cursor.
#[derive(Clone, Copy)]
pub struct Drained {
    pub hits: u64,
    pub entered: u64,
    pub next: Cursor,
}

impl Cursor {
    // Writes the slots of at most `limit` hits. The sum of the nodes entered fits a number,
    // whatever the words of the store are: with at most 32 levels, a walk has no more than 2^32
    // ways down.
    fn drain_by(
        self,
        nodes: &[u64],
        narrow: bool,
        count: u64,
        tests: Tests,
        limit: u64,
        out: &mut [u64],
    ) -> Drained
        requires { HoldsIn narrow nodes.now count × (count ≤ 65535) × (limit ≤ length out.old) × Placed count self }
        ensures { (result ≡ summary (drain (as_eight narrow nodes.now) count (tested (as_eight narrow nodes.now) count tests) limit self))
            × (out.new
            ≡ filled (drain (as_eight narrow nodes.now) count (tested (as_eight narrow nodes.now) count tests) limit self).slots out.old) }
    {
        let mut cursor = self;
        let mut entered: u64 = 0;
        for hits in 0..limit {
            let step = cursor.step(nodes, narrow, count, tests);
            entered += step.entered();
            let Step::Hit(next, _) = step else {
                return Drained {
                    hits,
                    entered,
                    next: Cursor::ended(),
                };
            };
            out[hits as usize] = next.slot;
            cursor = next;
        }
        Drained {
            hits: limit,
            entered,
            next: cursor,
        }
    }

    pub fn drain(
        self,
        nodes: &[u64],
        narrow: bool,
        count: u64,
        query: Query,
        limit: u64,
        out: &mut [u64],
    ) -> Drained
        requires { HoldsIn narrow nodes.now count × (count ≤ 65535) × (limit ≤ length out.old) × Placed count self }
        ensures { (result ≡ summary (drain (as_eight narrow nodes.now) count (rules (as_eight narrow nodes.now) count query) limit self))
            × (out.new
            ≡ filled (drain (as_eight narrow nodes.now) count (rules (as_eight narrow nodes.now) count query) limit self).slots out.old) }
    {
        self.drain_by(nodes, narrow, count, Tests::new(query), limit, out)
    }
}
