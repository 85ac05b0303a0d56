// What the program `slotlist` does, as functions on slices. The bytes of its input go in, in pieces
// of any length. At the end, what it prints is written into a lent buffer. The lent memory holds
// the entries, then the map.
#![tactic(auto)]

pub mod memory;
mod reading;
mod working;
mod writing;

ghost use Rattle.std.specs.Prelude.{◌≡◌};
ghost use Rattle.slotlist_core.specs.Feeding.{stage, begun, stepped, fed, last_line_lem, ended, finished, finish};
ghost use Rattle.slotlist_core.specs.Working.{desk, job};
ghost use Rattle.slotlist_core.specs.Reading.{byte_rule};

use iset::Refusal;
use reading::Line;
use working::{Work, take_line};
use writing::put_refusal;

const LINE_END: u8 = 10;

// The line so far, and what the lines before it have led to, or the first refusal.
#[derive(Clone, Copy)]
pub struct State {
    line: Line,
    work: Result<Work, Refusal>,
}

impl State {
    // The state before any input.
    pub fn new() -> State
        ensures { result ≡ begun }
    {
        State {
            line: Line::Start,
            work: Ok(Work::Listing(0)),
        }
    }

    // Takes the line so far as complete.
    fn end_line(&mut self, nodes: &mut [u64], colours: &mut [u8], entries: &mut [u64])
        ensures { stage self.new nodes.new colours.new entries.new
            ≡ stepped (stage self.old nodes.old colours.old entries.old) 10 }
    {
        self.work = take_line(self.work, self.line.end(), nodes, colours, entries);
        self.line = Line::Start;
    }

    // Takes one more byte of the line.
    fn more(&mut self, b: u8)
        ensures { (self.new.line ≡ byte_rule self.old.line b) × (self.new.work ≡ self.old.work) }
    {
        self.line = self.line.byte(b);
    }

    // Takes one more byte of input.
    fn byte(&mut self, b: u8, nodes: &mut [u64], colours: &mut [u8], entries: &mut [u64])
        ensures { stage self.new nodes.new colours.new entries.new
            ≡ stepped (stage self.old nodes.old colours.old entries.old) b }
    {
        if b == LINE_END {
            self.end_line(nodes, colours, entries);
        } else {
            self.more(b);
        }
    }

    // Takes one more piece of input, which may begin and end anywhere.
    pub fn feed(
        self,
        piece: &[u8],
        nodes: &mut [u64],
        colours: &mut [u8],
        entries: &mut [u64],
    ) -> State
        ensures { stage result nodes.new colours.new entries.new
            ≡ fed (stage self nodes.old colours.old entries.old) piece.now }
    {
        let mut state = self;
        for &b in piece {
            state.byte(b, nodes, colours, entries);
        }
        state
    }

    // Takes the last line, if its end is missing.
    fn end_last(
        self,
        nodes: &mut [u64],
        colours: &mut [u8],
        entries: &mut [u64],
    ) -> Result<Work, Refusal>
        ensures { desk (job result) nodes.new colours.new entries.new
            ≡ last_line_lem (stage self nodes.old colours.old entries.old) }
    {
        let line = self.line;
        let work = self.work;
        if line.is_new() {
            work
        } else {
            take_line(work, line.end(), nodes, colours, entries)
        }
    }

    // Ends the input.
    fn settle(
        self,
        nodes: &mut [u64],
        colours: &mut [u8],
        entries: &mut [u64],
    ) -> Result<Work, Refusal>
        ensures { desk (job result) nodes.new colours.new entries.new
            ≡ ended (stage self nodes.old colours.old entries.old) }
    {
        let work = self.end_last(nodes, colours, entries)?;
        work.settle(nodes, colours, entries)
    }

    // Ends the input. What is printed is written to the front of `out`; what does not fit is not
    // written. Returns the length of what was written.
    pub fn finish(
        self,
        nodes: &mut [u64],
        colours: &mut [u8],
        entries: &mut [u64],
        out: &mut [u8],
    ) -> usize
        ensures { finished result nodes.new colours.new entries.new out.new
            ≡ finish (stage self nodes.old colours.old entries.old) out.old }
    {
        match self.settle(nodes, colours, entries) {
            Ok(work) => work.put(nodes, out),
            Err(why) => put_refusal(out, why),
        }
    }
}
