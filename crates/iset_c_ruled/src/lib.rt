// The lookups for a range by the rule of a number, and the unloading of a range, for hosts in C and
// Rust, as include/iset_ruled.h declares them. By rule 1 they are the calls of crates iset_c and
// iset_c_open. By rule 2 an entry intersects a range if some whole address lies in both. Answers,
// refusals and their order are those of the calls without a rule; a number that is no rule is a
// BadRange.
//
// The exports are in exports.rt. A function whose name ends in `_in` does the work of an export for
// nodes of either layout: `narrow` says that a node has six words and not eight.
#![tactic(auto, using(iset_c::proofs::Laws::short_exit, iset_c::proofs::Laws::unbounded_exit))]

pub mod closed;
pub mod exports;
pub mod opened;

ghost use Rattle.std.specs.Prelude.{◌≡◌, cond, Some, None};
ghost use Rattle.iset_c.specs.Ranges.{kinds};
ghost use Rattle.iset_c_ruled.specs.Ranges.{ruled_of};

use iset::Query;
use iset_c::range::known_span;

// A range from the kinds and the values of its two bounds, with the number of a rule. There is none
// if one of the two is no kind.
fn ruled(rule: u64, lo_kind: u64, lo: u64, hi_kind: u64, hi: u64) -> Option<Query>
    ensures { result ≡ cond (kinds lo_kind hi_kind) (Some (ruled_of rule lo_kind lo hi_kind hi)) None }
{
    Some(Query::Ruled(rule, known_span(lo_kind, lo, hi_kind, hi)?))
}
