// A map in a classroom: a command a line, and an answer to each. Everything that is said about the
// map comes from the public calls (crates iset, disjoint). Entries, hits, nodes entered, versions
// and refusals are what the calls return. Links and colours are those of the image that the call
// `write_image` writes. Hulls, the height, the number of entries that touch a range and the walk of
// a lookup are worked out from that image (crate slotshell_view), and drawn (crate slotshell_draw).
#![tactic(auto)]

mod apart;
mod asked;
mod changes;
mod command;
mod entries;
mod images;
mod input;
mod lookups;
mod moved;
mod pictures;
mod refused;
mod state;
mod tickets;
mod tidying;
mod unloading;

use crate::command::{Command, command_of};
use crate::input::{Input, Line};
use crate::refused::Refused;
use crate::state::Shell;
use lines::output;
use lines::streams::Streams;
use slotshell_text::help;
use std::io;

impl Shell<'_> {
    fn check(&self) -> Result<(), Refused> {
        self.map.check(&self.nodes, &self.colours)?;
        output::send(self.streams, b"sound: ");
        self.say_map();
        Ok(())
    }

    fn obey(&mut self, command: Command) -> Result<(), Refused> {
        match command {
            Command::Nothing | Command::Quit => return Ok(()),
            Command::Unknown => help::say_unknown(self.streams),
            Command::Misused(usage) => help::say_usage(self.streams, usage),
            Command::Help => help::say_all(self.streams),
            Command::Draw(drawing) => self.draw(drawing),
            Command::Check => return self.check(),
            Command::Disjoint => return self.check_disjoint(),
            Command::Save => return self.save(),
            Command::Load => return self.load(),
            Command::Plan => return self.plan(),
            Command::Tidy => return self.tidy(),
            Command::Find(range) => return self.find(range),
            Command::Trace(range) => return self.trace(range),
            Command::Plain(range) => return self.plain(range),
            Command::Unload(range) => return self.unload(range),
            Command::Build(list) => return self.build(list),
            Command::Insert(e) => return self.insert(e),
            Command::Remove(slot) => return self.remove(slot),
            Command::At(address) => return self.at(address),
            Command::Exact(x) => return self.exact(x),
            Command::Ticket(slot) => return self.take_ticket(slot),
            Command::Read(number) => return self.read_ticket(number),
            Command::Renumber(list) => return self.renumber(list),
            Command::Point(address) => return self.point(address),
            Command::Fit(e) => return self.fit(e),
        }
        Ok(())
    }

    // Does what a line asks for, and says so, or why it was refused.
    fn answer(&mut self, command: Command) {
        if let Err(refused) = self.obey(command) {
            refused.say(self.streams);
        }
    }
}

// Asks for a line, if somebody types.
fn prompt(streams: &Streams) {
    if streams.is_typed_to() {
        output::send(streams, b"> ");
    }
}

// Ends the line of the last prompt, as the input ended there.
fn leave(streams: &Streams) {
    if streams.is_typed_to() {
        output::send(streams, b"\n");
    }
}

// What a line asks for. A line that is longer than the memory for it is not understood.
fn asked_by<'a>(line: Line, room: &'a mut [u64]) -> Command<'a> {
    match line.text {
        Some(text) => command_of(text, room),
        None => Command::Unknown,
    }
}

// Answers line after line to the end of the input, to `quit`, or until a read or a write fails. A
// line that a failed read cut off is not answered. After a failed write standard output takes
// nothing more (lines::streams), and the end of the program reports it. The loop is bounded by 2^64
// rounds, so that the proof can show that it ends.
fn session(streams: &Streams) -> io::Result<()> {
    let mut shell = Shell::new(streams);
    let mut input = Input::new();
    let mut room = [0; 32768];
    let mut numbers = [0; 16384];
    for _ in 0..u64::MAX {
        prompt(streams);
        let line = input.line(streams, &mut room);
        if line.is_err() {
            leave(streams);
        }
        let line = line?;
        let command = asked_by(line, &mut numbers);
        shell.answer(command);
        if line.last {
            leave(streams);
        }
        if line.last || matches!(command, Command::Quit) || !streams.is_open() {
            break;
        }
    }
    Ok(())
}

// Answers the lines of standard input on standard output. A failed read or write is reported on
// standard error, after the name of the program.
pub fn talk(rt: &HostRuntime, name: &[u8]) {
    let streams = Streams::new(rt);
    if streams.is_typed_to() {
        help::say_greeting(&streams);
    }
    if session(&streams).is_err() {
        output::complain(&streams, name, b"read");
    }
    output::close(&streams, name);
}
