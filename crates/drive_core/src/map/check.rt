// `check`: makes the store check alone.
use crate::answer::Output;
use crate::map::reply::Reply;
use crate::room::Store;
use iset::number_of;

pub(crate) fn check(s: &Store, out: &mut Output) -> Reply {
    let checked = s.map.check_in(s.nodes, s.narrow, s.colours);
    out.numbers(number_of(checked), &[]);
    Reply::new(s.map, 0)
}
