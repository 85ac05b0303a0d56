// `unload o BOUND BOUND` and `unload r RULE BOUND BOUND`: removes every entry that intersects a
// range.
use crate::answer::Output;
use crate::lookups::query;
use crate::map::reply::Reply;
use crate::map::store::Call;
use crate::room::Store;
use iset::Span;
use iter::rules::Query;

// The call whose numbers are a query. A query that names no rule goes by rule 1.
pub(crate) fn unloading<'a>(kind: &[u8], numbers: &'a [u64]) -> Option<Call<'a>> {
    match query::split(kind, numbers)? {
        (Query::Overlap(range), []) => Some(Call::Unload(1, range)),
        (Query::Ruled(rule, range), []) => Some(Call::Unload(rule, range)),
        _ => None,
    }
}

// A refused unloading shows the map as given, and that no entry is gone.
pub(crate) fn unload(s: &mut Store, rule: u64, range: Span, out: &mut Output) -> Reply {
    let (no, map, gone) = match s.map.unload_in(s.nodes, s.narrow, s.colours, rule, range) {
        Ok(left) => (0, left.map, left.gone),
        Err(why) => (why.number(), s.map, 0),
    };
    out.numbers(no, &[map.count, map.root, gone]);
    Reply::new(map, 0)
}
