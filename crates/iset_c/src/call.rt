// A step and a drain for any query, and an unloading by any rule, with the numbers of their
// answers. They serve the exports.
ghost use Rattle.std.specs.Prelude.{◌≡◌, true, [], ◌∷◌, ◌≤◌, length};
ghost use Rattle.words.specs.Layouts.{as_eight};
ghost use Rattle.iset_c.specs.Replies.{exit, step_exit, drain_exit, unload_exit};

use crate::answer::answered;
use iset::{Cursor, Map, Query, Span};

// A step of either kind of lookup.
pub fn step(
    map: Map,
    nodes: &[u64],
    narrow: bool,
    colours: &[u8],
    query: Query,
    cursor: Cursor,
    answer: &mut [u64],
) -> u64
    requires { 5 ≤ length answer.old }
    ensures { exit result answer.new []
        ≡ step_exit true answer.old map (as_eight narrow nodes.now) colours.now query cursor }
{
    answered(map.step_in(nodes, narrow, colours, query, cursor), answer)
}

// A drain of either kind of lookup.
pub fn drain(
    map: Map,
    nodes: &[u64],
    narrow: bool,
    colours: &[u8],
    query: Query,
    cursor: Cursor,
    limit: u64,
    out: &mut [u64],
    answer: &mut [u64],
) -> u64
    requires { 5 ≤ length answer.old }
    ensures { exit result answer.new (out.new ∷ [])
        ≡ drain_exit true answer.old map (as_eight narrow nodes.now) colours.now query cursor limit out.old }
{
    answered(
        map.drain_in(nodes, narrow, colours, query, cursor, limit, out),
        answer,
    )
}

// Unloads a range by the rule of a number.
pub fn unload(
    map: Map,
    nodes: &mut [u64],
    narrow: bool,
    colours: &mut [u8],
    rule: u64,
    range: Span,
    answer: &mut [u64],
) -> u64
    requires { 4 ≤ length answer.old }
    ensures { exit result answer.new (as_eight narrow nodes.new ∷ colours.new ∷ [])
        ≡ unload_exit true answer.old map (as_eight narrow nodes.old) colours.old rule range }
{
    answered(map.unload_in(nodes, narrow, colours, rule, range), answer)
}
