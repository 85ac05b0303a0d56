// Every public call by its numbers: one line in, one line out. docs/DRIVE.md says what it reads and
// writes.
#![tactic(auto)]

mod answer;
mod bits;
mod call;
mod given;
mod input;
mod last;
mod lookups;
mod map;
mod room;
mod session;
mod settings;
mod stacks;
mod ticket;

use crate::answer::Output;
use crate::call::Call;
use crate::input::Input;
use crate::session::Session;
use lines::output;
use lines::streams::Streams;
use std::io::Result;

// Room for the numbers of the longest line, a store at its limits.
const MOST_NUMBERS: usize = 40960;

fn respond(s: &mut Session, call: Call) {
    match call {
        Call::Nothing => {}
        Call::Unknown => s.out.what(),
        Call::Setting(c) => settings::set(s, c),
        Call::Map(c) => map::request(s, c),
        Call::Lookup(c) => lookups::request(s, c),
        Call::Bits(c) => bits::request(s, c),
        Call::Stack(c, stack) => stacks::request(c, stack, &mut s.out),
        Call::Last => last::request(s),
        Call::Ticket(slot) => ticket::request(s, slot),
    }
}

// Answers line after line to the end of the input, or until a read or a write fails. The answers
// are written out before more input is read, so that another program can wait for each of them. A
// write that failed is reported by output::close. The loop is bounded by 2^64 rounds, so that the
// proof can show that it ends.
fn answer_all(s: &mut Session, input: &mut Input, numbers: &mut [u64]) -> Result<()> {
    for _ in 0..u64::MAX {
        match input.line(numbers) {
            Ok(call) => respond(s, call),
            Err(e) => {
                s.out.send();
                return Err(e);
            }
        }
        if !input.has_line() && (!s.out.send() || input.is_ended()) {
            break;
        }
    }
    Ok(())
}

// Answers the lines of standard input on standard output. A failed read or write is reported on
// standard error, after the name of the program.
pub fn answer_lines(rt: &HostRuntime, name: &[u8]) {
    let streams = Streams::new(rt);
    let mut numbers = [0; MOST_NUMBERS];
    let mut input = Input::new(&streams);
    let mut session = Session::new(Output::new(&streams));
    if answer_all(&mut session, &mut input, &mut numbers).is_err() {
        output::complain(&streams, name, b"read");
    }
    output::close(&streams, name);
}
