// Writes the numbers of an answer, in the order that include/iset_disjoint.h declares.
ghost use Rattle.std.specs.Prelude.{◌≡◌, true, ◌≤◌, length};
ghost use Rattle.words.specs.Refusals.{refusal_number};
ghost use Rattle.disjoint.specs.Place.{refused_placement, place_answer};
ghost use Rattle.disjoint_core.specs.declared.point.Spot.{Spot};
ghost use Rattle.iset_c.specs.Replies.{number, insert_reply, refusal_of, written};
ghost use Rattle.iset_c_disjoint.specs.Replies.{spot_numbers, handed_met};

use disjoint::Spot;
use disjoint::insert::Blocked;
use iset::insert::Inserted;
use iset::{Map, Refusal};
use iset_c::answer::{Returned, put};

// Writes the numbers of a point lookup, unless it was refused. Returns the refusal's number, or 0 if
// there is none.
pub fn put_pointed(pointed: Result<Spot, Refusal>, answer: &mut [u64]) -> u64
    requires { 2 ≤ length answer.old }
    ensures number { result ≡ refusal_of pointed }
    ensures answer { answer.new ≡ written (λ (a : Spot). spot_numbers a.slot a.entered) pointed answer.old }
{
    match pointed {
        Ok(a) => {
            put(&[a.slot, a.entered], answer);
            0
        }
        Err(why) => why.number(),
    }
}

// A refused insertion. Overlap names a slot, so its answer is written: the map as given, the slot,
// no changed hull. Returns the refusal's number.
#[tactic(auto, using(crate::proofs::Laws::refused_number, crate::proofs::Laws::met_answer, crate::proofs::Laws::refused_answer))]
fn put_refused(map: Map, blocked: Blocked, answer: &mut [u64]) -> u64
    requires { 5 ≤ length answer.old }
    ensures { (result ≡ number true answer.old (insert_reply (refused_placement map (refusal_number blocked.why) blocked.slot)))
        × (answer.new ≡ handed_met answer.old (insert_reply (refused_placement map (refusal_number blocked.why) blocked.slot))) }
{
    let number = blocked.why.number();
    if let Refusal::Overlap = blocked.why {
        let met = Inserted {
            map,
            slot: blocked.slot,
            reach: 0,
        };
        met.put(answer);
        return number;
    }
    number
}

// Writes the numbers of an insertion if it was made or was refused with Overlap. Returns the
// refusal's number, or 0 if there is none.
#[tactic(auto, using(crate::proofs::Laws::placed_refused, crate::proofs::Laws::placed_kept))]
pub fn put_placed(map: Map, placement: Result<Inserted, Blocked>, answer: &mut [u64]) -> u64
    requires { 5 ≤ length answer.old }
    ensures { (result ≡ number true answer.old (insert_reply (place_answer map placement)))
        × (answer.new ≡ handed_met answer.old (insert_reply (place_answer map placement))) }
{
    match placement {
        Ok(a) => {
            a.put(answer);
            0
        }
        Err(blocked) => put_refused(map, blocked, answer),
    }
}
