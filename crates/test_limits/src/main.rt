// Builds and checks at the limits of the memory that a map can have, with nodes of eight words and
// then with nodes of six. Each build prints one line: the number of entries, the number of node
// words, then the refusal's number. If there is no refusal, the count, the root and the number of
// the check afterwards follow. Then each chain prints one line: how many nodes it has, the number
// of node words, and the number of the check. In a chain each node is the right child of the one
// before. Each build and each chain is in as many words as it takes, and then in one word less.
// Then a map of as many entries as there can be prints one line: how many are gone after all of
// them were unloaded, then 0, the count, the root and the number of the check afterwards. Then such
// a map is renumbered, first by reversal and then, built again, by a shift, and each time back to
// tree order by the planner's proposal. That prints one line: of either renumbering 0, the count,
// the root and the number of the check, and the number of the proposal after it; then how many
// slots the second proposal leaves where they are, and the version.
#![tactic(auto)]

ghost use Rattle.std.specs.Prelude.{◌≡◌, true, ◌*◌, ◌<◌, ◌≤◌, length};
ghost use Rattle.words.specs.Layouts.{HoldsIn, kid_fits};

use iset::unload::Unloaded;
use iset::{Map, Refusal, number_of};
use lines::output;
use lines::streams::Streams;
use words::interval::{Bound, Interval, Span};
use words::ix::U;
use words::node::{Entry, capacity, put_node};

fn words_space() -> [u64; 524288]
    ensures { 524288 ≡ length result }
{
    [0; 524288]
}

fn list_space() -> [u64; 196608]
    ensures { 196608 ≡ length result }
{
    [0; 196608]
}

fn bytes_space() -> [u8; 8192]
    ensures { 8192 ≡ length result }
{
    [0; 8192]
}

fn number(streams: &Streams, x: u64) {
    output::send_number(streams, x);
    output::send(streams, b" ");
}

// Writes the k-th entry. The entries overlap, and two entries at a time begin at the same address.
fn put_triple(list: &mut [u64], k: usize) {
    if k < list.len() / 3 {
        let pair = (k / 2) as u64;
        list[k * 3] = pair;
        list[k * 3 + 1] = pair / 2 + 100000;
        list[k * 3 + 2] = pair / 3;
    }
}

fn put_triples(list: &mut [u64], n: usize) {
    for k in 0..n {
        put_triple(list, k);
    }
}

// How many node words n slots take.
fn words_for(n: usize, narrow: bool) -> usize
    requires { n ≤ 65536 }
    ensures { (n ≤ result) × (result ≤ 524288) }
{
    if narrow { n * 6 } else { n * 8 }
}

fn show_map(streams: &Streams, m: Map, nodes: &[u64], narrow: bool, colours: &[u8]) {
    number(streams, 0);
    number(streams, m.count);
    number(streams, m.root);
    number(streams, number_of(m.check_in(nodes, narrow, colours)));
}

fn show_built(
    streams: &Streams,
    a: Result<Map, Refusal>,
    nodes: &[u64],
    narrow: bool,
    colours: &[u8],
) {
    match a {
        Err(why) => number(streams, why.number()),
        Ok(m) => show_map(streams, m, nodes, narrow, colours),
    }
}

// Builds the map of the first k numbers of the list.
fn built(
    k: usize,
    list: &[u64],
    nodes: &mut [u64],
    narrow: bool,
    colours: &mut [u8],
) -> Result<Map, Refusal> {
    let n = k.min(list.len());
    Map::new().build_in(nodes, narrow, colours, &list[..n])
}

fn build_list(
    streams: &Streams,
    k: usize,
    list: &[u64],
    nodes: &mut [u64],
    narrow: bool,
    colours: &mut [u8],
) {
    let a = built(k, list, nodes, narrow, colours);
    show_built(streams, a, nodes, narrow, colours);
    output::send(streams, b"\n");
}

// Builds the map of the first n entries of the list in so many words.
fn build(
    streams: &Streams,
    n: usize,
    words: usize,
    list: &[u64],
    nodes: &mut [u64],
    narrow: bool,
    colours: &mut [u8],
)
    requires { (n ≤ 65536) × (words ≤ length nodes.old) }
{
    number(streams, n as u64);
    number(streams, words as u64);
    build_list(streams, n * 3, list, &mut nodes[..words], narrow, colours);
}

// Builds n entries in the words that they take, and in one word less.
fn build_both(
    streams: &Streams,
    n: usize,
    list: &mut [u64],
    nodes: &mut [u64],
    narrow: bool,
    colours: &mut [u8],
)
    requires { (1 ≤ n) × (n ≤ 65536) × (524288 ≤ length nodes.old) }
{
    put_triples(list, n);
    let w = words_for(n, narrow);
    build(streams, n, w, list, nodes, narrow, colours);
    build(streams, n, w - 1, list, nodes, narrow, colours);
}

fn next_of(n: u64, k: u64) -> u64
    requires { (k < n) × (n ≤ 65535) }
    ensures { kid_fits true result ≡ true }
{
    if n - k < 2 { U } else { k + 1 }
}

fn before(k: u64) -> u64
    requires { k ≤ 65535 }
    ensures { kid_fits true result ≡ true }
{
    if k == 0 { U } else { k - 1 }
}

// Writes slot k of a chain of n. Its right link leads to the next slot, and its parent is the one
// before.
fn put_link(nodes: &mut [u64], narrow: bool, n: u64, k: u64)
    requires { (k < n) × HoldsIn narrow nodes.old n }
{
    let e = Entry {
        start: k,
        end: k + 1,
        value: 0,
    };
    let h = Interval { start: k, end: n };
    put_node(nodes, narrow, k, e, h, U, next_of(n, k), before(k));
}

fn put_chain(nodes: &mut [u64], narrow: bool, n: u64)
    requires { HoldsIn narrow nodes.old n }
{
    for k in 0..n {
        put_link(nodes, narrow, n, k);
    }
}

// Checks a map of `count` entries whose nodes are a chain. The chain has no more nodes than the
// words hold.
fn check_chain(streams: &Streams, count: u64, nodes: &mut [u64], narrow: bool, colours: &[u8]) {
    let room = capacity(nodes.len(), narrow, colours.len());
    put_chain(nodes, narrow, count.min(room));
    let m = Map {
        count,
        root: 0,
        version: 0,
    };
    number(streams, number_of(m.check_in(nodes, narrow, colours)));
    output::send(streams, b"\n");
}

// A chain of n in so many words.
fn chain(streams: &Streams, n: usize, words: usize, nodes: &mut [u64], narrow: bool, colours: &[u8])
    requires { words ≤ length nodes.old }
{
    number(streams, n as u64);
    number(streams, words as u64);
    check_chain(streams, n as u64, &mut nodes[..words], narrow, colours);
}

// A chain of n in the words that it takes, and in one word less.
fn chain_both(streams: &Streams, n: usize, nodes: &mut [u64], narrow: bool, colours: &[u8])
    requires { (1 ≤ n) × (n ≤ 65536) × (524288 ≤ length nodes.old) }
{
    let w = words_for(n, narrow);
    chain(streams, n, w, nodes, narrow, colours);
    chain(streams, n, w - 1, nodes, narrow, colours);
}

// How many entries build k has. The last build but one has as many as a map can have, and the last
// has one more.
fn size(k: u64) -> usize
    ensures { (1 ≤ result) × (result ≤ 65536) }
{
    match k {
        0 => 255,
        1 => 256,
        2 => 4096,
        3 => 65535,
        _ => 65536,
    }
}

fn builds(streams: &Streams, list: &mut [u64], nodes: &mut [u64], narrow: bool, colours: &mut [u8])
    requires { 524288 ≤ length nodes.old }
{
    for k in 0..5 {
        let n = size(k);
        build_both(streams, n, list, nodes, narrow, colours);
    }
}

fn chains(streams: &Streams, nodes: &mut [u64], narrow: bool, colours: &[u8])
    requires { 524288 ≤ length nodes.old }
{
    chain_both(streams, 1, nodes, narrow, colours);
    chain_both(streams, 2, nodes, narrow, colours);
    chain_both(streams, 4000, nodes, narrow, colours);
    chain_both(streams, 65535, nodes, narrow, colours);
    chain_both(streams, 65536, nodes, narrow, colours);
}

fn show_unloaded(
    streams: &Streams,
    a: Result<Unloaded, Refusal>,
    nodes: &[u64],
    narrow: bool,
    colours: &[u8],
) {
    match a {
        Err(why) => number(streams, why.number()),
        Ok(left) => {
            number(streams, left.gone);
            show_map(streams, left.map, nodes, narrow, colours);
        }
    }
}

// Unloads every entry.
fn unload_all(streams: &Streams, m: Map, nodes: &mut [u64], narrow: bool, colours: &mut [u8]) {
    let all = Span {
        lo: Bound::Unbounded,
        hi: Bound::Unbounded,
    };
    let a = m.unload_in(nodes, narrow, colours, 1, all);
    show_unloaded(streams, a, nodes, narrow, colours);
}

fn unload_built(
    streams: &Streams,
    a: Result<Map, Refusal>,
    nodes: &mut [u64],
    narrow: bool,
    colours: &mut [u8],
) {
    match a {
        Err(why) => number(streams, why.number()),
        Ok(m) => unload_all(streams, m, nodes, narrow, colours),
    }
}

// Builds a map of as many entries as there can be, and unloads it.
fn unload(
    streams: &Streams,
    list: &mut [u64],
    nodes: &mut [u64],
    narrow: bool,
    colours: &mut [u8],
) {
    put_triples(list, 65535);
    let a = built(196605, list, nodes, narrow, colours);
    unload_built(streams, a, nodes, narrow, colours);
    output::send(streams, b"\n");
}

// The slot of slot k in a plan for n slots. By a shift that is the next one, and slot 0 for the
// last; else it is the one that is as far from the other end.
fn new_slot(n: u64, k: u64, shift: bool) -> u64
    requires { k < n }
{
    if n - k < 2 {
        0
    } else if shift {
        k + 1
    } else {
        n - k - 1
    }
}

fn put_slot(plan: &mut [u64], k: usize, shift: bool) {
    if k < plan.len() {
        plan[k] = new_slot(plan.len() as u64, k as u64, shift);
    }
}

fn put_plan(plan: &mut [u64], n: usize, shift: bool) {
    for k in 0..n {
        put_slot(plan, k, shift);
    }
}

// 1 if the plan leaves slot k where it is, else 0.
fn stays(plan: &[u64], k: usize) -> u64
    ensures { result ≤ 1 }
{
    if k < plan.len() {
        if plan[k] == k as u64 {
            return 1;
        }
    }
    0
}

// How many of n slots it leaves where they are.
fn at_home(plan: &[u64], n: usize) -> u64 {
    let mut found: u64 = 0;
    for k in 0..n {
        found += stays(plan, k);
    }
    found
}

// The map after a renumbering, or as it was if that is refused.
fn renumbered(m: Map, nodes: &mut [u64], narrow: bool, colours: &mut [u8], plan: &[u64]) -> Map {
    m.renumber_in(nodes, narrow, colours, plan).unwrap_or(m)
}

// Renumbers by a plan, which the next proposal then replaces.
fn move_all(
    streams: &Streams,
    m: Map,
    nodes: &mut [u64],
    narrow: bool,
    colours: &mut [u8],
    plan: &mut [u64],
) -> Map {
    let new = renumbered(m, nodes, narrow, colours, plan);
    show_map(streams, new, nodes, narrow, colours);
    number(
        streams,
        number_of(new.propose_in(nodes, narrow, colours, plan)),
    );
    new
}

fn tidy(
    streams: &Streams,
    m: Map,
    nodes: &mut [u64],
    narrow: bool,
    colours: &mut [u8],
    plan: &mut [u64],
) {
    let moved = move_all(streams, m, nodes, narrow, colours, plan);
    let tidied = move_all(streams, moved, nodes, narrow, colours, plan);
    number(streams, at_home(plan, plan.len()));
    number(streams, tidied.version as u64);
}

fn tidy_built(
    streams: &Streams,
    a: Result<Map, Refusal>,
    nodes: &mut [u64],
    narrow: bool,
    colours: &mut [u8],
    plan: &mut [u64],
) {
    match a {
        Err(why) => number(streams, why.number()),
        Ok(m) => tidy(streams, m, nodes, narrow, colours, plan),
    }
}

// Renumbers a map that was built, by a plan for as many slots as the list has places.
fn tidy_by(
    streams: &Streams,
    a: Result<Map, Refusal>,
    plan: &mut [u64],
    shift: bool,
    nodes: &mut [u64],
    narrow: bool,
    colours: &mut [u8],
) {
    put_plan(plan, plan.len(), shift);
    tidy_built(streams, a, nodes, narrow, colours, plan);
    output::send(streams, b"\n");
}

// Builds a map of as many entries as there can be, and renumbers it. The plan stands where the list
// stood.
fn renumber(
    streams: &Streams,
    list: &mut [u64],
    shift: bool,
    nodes: &mut [u64],
    narrow: bool,
    colours: &mut [u8],
) {
    put_triples(list, 65535);
    let a = built(196605, list, nodes, narrow, colours);
    let n = list.len().min(65535);
    tidy_by(streams, a, &mut list[..n], shift, nodes, narrow, colours);
}

fn changes(
    streams: &Streams,
    list: &mut [u64],
    nodes: &mut [u64],
    narrow: bool,
    colours: &mut [u8],
) {
    unload(streams, list, nodes, narrow, colours);
    renumber(streams, list, false, nodes, narrow, colours);
    renumber(streams, list, true, nodes, narrow, colours);
}

fn main(rt: HostRuntime) {
    let streams = Streams::new(&rt);
    let mut list = list_space();
    let mut nodes = words_space();
    let mut colours = bytes_space();
    let black = bytes_space();
    builds(&streams, &mut list, &mut nodes, false, &mut colours);
    chains(&streams, &mut nodes, false, &black);
    changes(&streams, &mut list, &mut nodes, false, &mut colours);
    builds(&streams, &mut list, &mut nodes, true, &mut colours);
    chains(&streams, &mut nodes, true, &black);
    changes(&streams, &mut list, &mut nodes, true, &mut colours);
    output::close(&streams, b"test_limits");
}
