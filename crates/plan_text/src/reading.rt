// Reads the lines of a plan, in any order, into a plan: at the place of each old slot, its new one.
// The plan's length is the count of slots. A place that no line has named yet holds FREE. `lines`
// has, at the place of each new slot, the number of the line that gave it away, and 0 if none did.
ghost use Rattle.std.specs.Prelude.{◌≡◌, length, get_or, set};
ghost use Rattle.plan_text.specs.Reading.{flaw_of, shelf, placed, said, next_line_lem, stage, begun, lined, stepped, fed, last_of, first_free_lem, finished};
ghost use Rattle.plan_text.specs.Line.{byte_rule};

use crate::line::{Line, Move};

const LINE_END: u8 = 10;

// The number in a place of the plan that no line has named. It is above every slot.
const FREE: u64 = 4294967295;

// What is wrong with a plan, first in the order of its lines. Lines are counted from 1, up to FREE.
#[derive(Clone, Copy)]
pub enum Flaw {
    // the line is not two numbers with one space between them
    Form { line: u64 },
    // the line names a slot that is not below the count
    High { line: u64, slot: u64, count: u64 },
    // the line names an old slot, or a new one, that the line `before` has named
    OldAgain { line: u64, slot: u64, before: u64 },
    NewAgain { line: u64, slot: u64, before: u64 },
    // no line names this old slot
    Missing { slot: u64 },
}

// The line so far, how many lines came before it, and whether they are right.
#[derive(Clone, Copy)]
pub struct State {
    line: Line,
    number: u64,
    checked: Result<(), Flaw>,
}

// Returns the number at a place, and 0 past the end.
fn number_at(numbers: &[u64], i: u64) -> u64
    ensures { result ≡ get_or numbers.now i 0 }
{
    numbers.get(i as usize).copied().unwrap_or(0)
}

// Writes the number at a place, and nothing past the end.
fn put_at(numbers: &mut [u64], i: u64, x: u64)
    ensures { numbers.new ≡ set numbers.old i x }
{
    if i < numbers.len() as u64 {
        numbers[i as usize] = x;
    }
}

// Whether the line `line` may give the slot `old` the new slot `new`, or what is wrong with it.
fn test(plan: &[u64], lines: &[u64], line: u64, old: u64, new: u64) -> Result<(), Flaw>
    ensures { result ≡ flaw_of line old new plan.now lines.now }
{
    let count = plan.len() as u64;
    if count <= old {
        return Err(Flaw::High {
            line,
            slot: old,
            count,
        });
    }
    if count <= new {
        return Err(Flaw::High {
            line,
            slot: new,
            count,
        });
    }
    let given = number_at(plan, old);
    if given != FREE {
        return Err(Flaw::OldAgain {
            line,
            slot: old,
            before: number_at(lines, given),
        });
    }
    let before = number_at(lines, new);
    if before != 0 {
        return Err(Flaw::NewAgain {
            line,
            slot: new,
            before,
        });
    }
    Ok(())
}

// Takes the line into the plan, if nothing is wrong with it.
fn place(plan: &mut [u64], lines: &mut [u64], line: u64, old: u64, new: u64) -> Result<(), Flaw>
    ensures { shelf result plan.new lines.new ≡ placed line old new plan.old lines.old }
{
    test(plan, lines, line, old, new)?;
    put_at(plan, old, new);
    put_at(lines, new, line);
    Ok(())
}

// Takes a complete line.
fn take(what: Option<Move>, line: u64, plan: &mut [u64], lines: &mut [u64]) -> Result<(), Flaw>
    ensures { shelf result plan.new lines.new ≡ said what line plan.old lines.old }
{
    match what {
        Some(Move { old, new }) => place(plan, lines, line, old, new),
        None => Err(Flaw::Form { line }),
    }
}

// Returns the number of the line after this one.
fn next_line(line: u64) -> u64
    ensures { result ≡ next_line_lem line }
{
    if line < FREE { line + 1 } else { line }
}

// Whether a line names each old slot, or the first that none does.
fn first_free(plan: &[u64]) -> Result<(), Flaw>
    ensures { result ≡ first_free_lem 0 plan.now }
{
    for i in 0..plan.len() {
        if plan[i] == FREE {
            return Err(Flaw::Missing { slot: i as u64 });
        }
    }
    Ok(())
}

impl State {
    // The state before any text.
    pub fn new() -> State
        ensures { result ≡ begun }
    {
        State {
            line: Line::Start,
            number: 0,
            checked: Ok(()),
        }
    }

    // Takes the line so far as complete.
    fn end_line(&mut self, plan: &mut [u64], lines: &mut [u64])
        ensures { stage self.new plan.new lines.new ≡ lined (stage self.old plan.old lines.old) }
    {
        self.number = next_line(self.number);
        self.checked = take(self.line.end(), self.number, plan, lines);
        self.line = Line::Start;
    }

    // Takes one more byte of the line.
    fn more(&mut self, b: u8)
        ensures { (self.new.line ≡ byte_rule self.old.line b) × (self.new.number ≡ self.old.number) × (self.new.checked ≡ self.old.checked) }
    {
        self.line = self.line.byte(b);
    }

    // Takes one more byte of the text. After a flaw nothing is taken.
    fn byte(&mut self, b: u8, plan: &mut [u64], lines: &mut [u64])
        ensures { stage self.new plan.new lines.new ≡ stepped (stage self.old plan.old lines.old) b }
    {
        if self.checked.is_ok() {
            if b == LINE_END {
                self.end_line(plan, lines);
            } else {
                self.more(b);
            }
        }
    }

    // Takes one more piece of the text, which may begin and end anywhere.
    pub fn feed(self, piece: &[u8], plan: &mut [u64], lines: &mut [u64]) -> State
        ensures { stage result plan.new lines.new ≡ fed (stage self plan.old lines.old) piece.now }
    {
        let mut state = self;
        for &b in piece {
            state.byte(b, plan, lines);
        }
        state
    }

    // Ends the last line, if its end is missing.
    fn end_last(self, plan: &mut [u64], lines: &mut [u64]) -> State
        ensures { stage result plan.new lines.new ≡ last_of (stage self plan.old lines.old) }
    {
        let mut state = self;
        if !state.line.is_new() {
            state.byte(LINE_END, plan, lines);
        }
        state
    }

    // Ends the text. If nothing is wrong, each slot below the count has its line, and the plan is
    // whole.
    pub fn finish(self, plan: &mut [u64], lines: &mut [u64]) -> Result<(), Flaw>
        ensures { shelf result plan.new lines.new ≡ finished (stage self plan.old lines.old) }
    {
        let state = self.end_last(plan, lines);
        state.checked?;
        first_free(plan)
    }
}
