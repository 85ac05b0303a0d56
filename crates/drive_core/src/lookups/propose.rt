// `propose ROOM`: writes for each slot its place in tree order to an output of ROOM places. Nothing
// else is printed but the refusal's number.
use crate::answer::Output;
use crate::room::Store;
use iset::number_of;

pub(crate) fn propose(s: &Store, places: &mut [u64], out: &mut Output) {
    let checked = s.map.propose_in(s.nodes, s.narrow, s.colours, places);
    out.numbers(number_of(checked), &[]);
}
