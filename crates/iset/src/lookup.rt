// Looking up: finds the entries that intersect a range, or those that are equal to an interval. By
// rule 1 an entry intersects as in the Rust crate, and by rule 2 if some whole address lies in
// both. A lookup goes step by step or returns many entries at once. A cursor is its place between
// two calls.
#![tactic(auto, using(words::proofs::Refusals::number_pos, crate::proofs::Lookups::startable, crate::proofs::Lookups::steppable, crate::proofs::Lookups::drainable), unfolding(crate::specs::Lookup::open_start_number, crate::specs::Lookup::open_step_number, crate::specs::Lookup::open_drain_number, crate::specs::Lookup::start_number, crate::specs::Lookup::step_number, crate::specs::Lookup::drain_number, crate::specs::Lookup::open_start_call, crate::specs::Lookup::start_call, crate::specs::Lookup::open_step_call, crate::specs::Lookup::step_call, crate::specs::Lookup::open_drain_call, crate::specs::Lookup::drain_call))]

ghost use Rattle.std.specs.Prelude.{◌≡◌, ◌≤◌, ltb, if◌then◌else◌, nat_lt};
ghost use Rattle.words.specs.Layouts.{as_eight, HoldsIn};
ghost use Rattle.iter.specs.Cursors.{fresh};
ghost use Rattle.iter.specs.Drains.{limit_of_lem};
ghost use Rattle.iter.specs.Forms.{form_of};
ghost use Rattle.iter.specs.Places.{Placed};
ghost use Rattle.iter.specs.Walk.{step};
ghost use Rattle.iter.specs.Queries.{rules};
ghost use Rattle.iter.specs.Answers.{answer, is_hit_lem};
ghost use Rattle.iset.specs.Effects.{output};
ghost use Rattle.iset.specs.Check.{check_number};
ghost use Rattle.iset.specs.Lookup.{ordered, accepts, query_number, beginning, form_number, open_start_number, open_step_number, open_drain_number, start_answer, open_start_call, start_call, step_answer, open_step_call, step_call, drain_answer, open_drain_call, drain_call};

use crate::{Map, sound_if};
use iter::drain::Drained;
use iter::ranges::holds_whole;
use iter::rules::{Query, find_index};
use iter::seek::Step;
use iter::{Cursor, Form};
use words::interval::{Bound, Interval, Span};
use words::refusal::Refusal;

// Whether a range is ordered: a bound is Unbounded, or the lower one is less than the upper one, or
// both are Included and equal.
fn check_ordered(range: Span) -> bool
    ensures { result ≡ ordered range.lo range.hi }
{
    match (range.lo, range.hi) {
        (Bound::Included(a), Bound::Included(b)) => a <= b,
        (Bound::Included(a), Bound::Excluded(b)) => a < b,
        (Bound::Excluded(a), Bound::Included(b)) => a < b,
        (Bound::Excluded(a), Bound::Excluded(b)) => a < b,
        _ => true,
    }
}

// Whether a range is one by the rule of a number.
fn is_accepted(rule: u64, range: Span) -> bool
    ensures { result ≡ accepts rule range.lo range.hi }
{
    match rule {
        1 => check_ordered(range),
        2 => holds_whole(range.lo, range.hi),
        _ => false,
    }
}

fn test_query(query: Query) -> Result<(), Refusal>
    ensures { check_number result ≡ query_number query }
{
    match query {
        Query::Overlap(range) => sound_if(check_ordered(range), Refusal::BadRange),
        Query::Ruled(rule, range) => sound_if(is_accepted(rule, range), Refusal::BadRange),
        Query::Exact(x) => sound_if(x.is_proper(), Refusal::BadInterval),
    }
}

fn test_form(form: Form) -> Result<(), Refusal>
    ensures { check_number result ≡ form_number form }
{
    match form {
        Form::Fresh | Form::Held | Form::Ended => Ok(()),
        Form::Bad => Err(Refusal::BadCursor),
    }
}

// How many hits a drain may write to an output of `places` places. A limit of 0 means as many as
// fit.
fn limit_of(limit: u64, places: u64) -> u64
    ensures { result ≡ limit_of_lem limit places }
{
    if limit == 0 { places } else { limit }
}

fn test_room(limit: u64, places: u64) -> Result<(), Refusal>
    ensures { check_number result ≡ (if ltb places (limit_of_lem limit places) then 9 else 0) }
{
    sound_if(limit_of(limit, places) <= places, Refusal::ShortOutput)
}

// A step, made as a drain of one hit. So the walk has one caller, and is inlined in the drain's
// loop.
fn one_hit(cursor: Cursor, nodes: &[u64], narrow: bool, count: u64, query: Query) -> Step
    requires { HoldsIn narrow nodes.now count × (count ≤ 65535) × Placed count cursor }
    ensures { (answer result ≡ step (as_eight narrow nodes.now) count (rules (as_eight narrow nodes.now) count query) cursor)
        × (is_hit_lem result ≡ nat_lt (answer result).slot count) }
{
    let mut slots = [0; 1];
    let d = cursor.drain(nodes, narrow, count, query, 1, &mut slots);
    if d.hits == 1 {
        Step::Hit(d.next, d.entered)
    } else {
        Step::End(d.entered)
    }
}

impl Map {
    // The first refusal of a query in an opened store (see lib.rt).
    pub(crate) fn test_start(
        self,
        nodes: &[u64],
        narrow: bool,
        colours: &[u8],
        query: Query,
    ) -> Result<(), Refusal>
        ensures { check_number result ≡ open_start_number self (as_eight narrow nodes.now) colours.now query }
    {
        self.test_count(nodes, narrow, colours)?;
        test_query(query)
    }

    // The slot that a lookup begins at.
    fn begin(self, nodes: &[u64], narrow: bool, query: Query) -> u64
        requires { HoldsIn narrow nodes.now self.count }
        ensures { result ≡ beginning self (as_eight narrow nodes.now) query }
    {
        match query {
            Query::Overlap(_) | Query::Ruled(_, _) => self.root,
            Query::Exact(x) => find_index(nodes, narrow, self.count, x, self.root),
        }
    }

    fn test_place(
        self,
        nodes: &[u64],
        narrow: bool,
        query: Query,
        cursor: Cursor,
    ) -> Result<(), Refusal>
        requires { HoldsIn narrow nodes.now self.count }
        ensures { check_number result ≡ form_number (form_of (as_eight narrow nodes.now) self.count (beginning self (as_eight narrow nodes.now) query) cursor) }
    {
        test_form(cursor.form(nodes, narrow, self.count, self.begin(nodes, narrow, query)))
    }

    // The first refusal of a step.
    fn test_step(
        self,
        nodes: &[u64],
        narrow: bool,
        colours: &[u8],
        query: Query,
        cursor: Cursor,
    ) -> Result<(), Refusal>
        ensures { check_number result ≡ open_step_number self (as_eight narrow nodes.now) colours.now query cursor }
    {
        self.test_start(nodes, narrow, colours, query)?;
        self.test_place(nodes, narrow, query, cursor)
    }

    // The first refusal of a drain into an output of `places` places.
    fn test_drain(
        self,
        nodes: &[u64],
        narrow: bool,
        colours: &[u8],
        query: Query,
        from: Cursor,
        limit: u64,
        places: u64,
    ) -> Result<(), Refusal>
        ensures { check_number result ≡ open_drain_number self (as_eight narrow nodes.now) colours.now query from limit places }
    {
        self.test_step(nodes, narrow, colours, query, from)?;
        test_room(limit, places)
    }

    // The fresh cursor of an overlap lookup. The calls that take a cursor test it.
    pub fn fresh(self) -> Cursor
        ensures { result ≡ fresh self.root }
    {
        Cursor::fresh(self.root)
    }

    // `fresh_exact`, `step` and `drain` for an opened store.
    pub fn open_fresh_exact_in(
        self,
        nodes: &[u64],
        narrow: bool,
        colours: &[u8],
        query: Interval,
    ) -> Result<Cursor, Refusal>
        ensures { start_answer result ≡ open_start_call self (as_eight narrow nodes.now) colours.now query }
    {
        let exact = Query::Exact(query);
        self.test_start(nodes, narrow, colours, exact)?;
        Ok(Cursor::fresh(self.begin(nodes, narrow, exact)))
    }

    pub fn open_step_in(
        self,
        nodes: &[u64],
        narrow: bool,
        colours: &[u8],
        query: Query,
        cursor: Cursor,
    ) -> Result<Step, Refusal>
        ensures { step_answer cursor result ≡ open_step_call self (as_eight narrow nodes.now) colours.now query cursor }
    {
        self.test_step(nodes, narrow, colours, query, cursor)?;
        Ok(one_hit(cursor, nodes, narrow, self.count, query))
    }

    pub fn open_drain_in(
        self,
        nodes: &[u64],
        narrow: bool,
        colours: &[u8],
        query: Query,
        cursor: Cursor,
        limit: u64,
        out: &mut [u64],
    ) -> Result<Drained, Refusal>
        ensures { output (drain_answer cursor result) out.new
            ≡ open_drain_call self (as_eight narrow nodes.now) colours.now query cursor limit out.old }
    {
        let places = out.len() as u64;
        self.test_drain(nodes, narrow, colours, query, cursor, limit, places)?;
        Ok(cursor.drain(
            nodes,
            narrow,
            self.count,
            query,
            limit_of(limit, places),
            out,
        ))
    }

    // Returns the fresh cursor of an exact lookup. It is at the highest entry that is equal to the
    // query.
    pub fn fresh_exact_in(
        self,
        nodes: &[u64],
        narrow: bool,
        colours: &[u8],
        query: Interval,
    ) -> Result<Cursor, Refusal>
        ensures { start_answer result ≡ start_call self (as_eight narrow nodes.now) colours.now query }
    {
        self.check_in(nodes, narrow, colours)?;
        self.open_fresh_exact_in(nodes, narrow, colours, query)
    }

    // Returns the next hit after a cursor, or the end.
    pub fn step_in(
        self,
        nodes: &[u64],
        narrow: bool,
        colours: &[u8],
        query: Query,
        cursor: Cursor,
    ) -> Result<Step, Refusal>
        ensures { step_answer cursor result ≡ step_call self (as_eight narrow nodes.now) colours.now query cursor }
    {
        self.check_in(nodes, narrow, colours)?;
        self.open_step_in(nodes, narrow, colours, query, cursor)
    }

    // Steps until the end, or until `limit` hits are written to `out`. A limit of 0 means as many
    // as fit.
    pub fn drain_in(
        self,
        nodes: &[u64],
        narrow: bool,
        colours: &[u8],
        query: Query,
        cursor: Cursor,
        limit: u64,
        out: &mut [u64],
    ) -> Result<Drained, Refusal>
        ensures { output (drain_answer cursor result) out.new
            ≡ drain_call self (as_eight narrow nodes.now) colours.now query cursor limit out.old }
    {
        self.check_in(nodes, narrow, colours)?;
        self.open_drain_in(nodes, narrow, colours, query, cursor, limit, out)
    }
}
