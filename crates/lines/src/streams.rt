// The standard streams. A program makes them from its runtime once, and lends them to what reads
// and writes.
ghost use Rattle.std.specs.Result.{result_unwrap_or};
ghost use Rattle.io.specs.Counts.{IsPrefixLen};

use std::cell::Cell;
use std::io::{self, IsTerminal, Read};
use std::rt::{HostRuntime, Stderr, Stdin, Stdout};

// The streams, and whether a write to standard output has failed.
#[derive(Drop)]
pub struct Streams {
    input: Stdin,
    output: Stdout,
    errors: Stderr,
    is_cut: Cell<bool>,
}

impl Streams {
    pub fn new(rt: &HostRuntime) -> Streams {
        Streams {
            input: rt.stdin(),
            output: rt.stdout(),
            errors: rt.stderr(),
            is_cut: Cell::new(false),
        }
    }

    // Reads once from standard input, to the front of the space. Returns how many bytes were read,
    // which is 0 at the end of the input.
    pub fn read(&self, space: &mut [u8]) -> io::Result<usize>
        ensures { IsPrefixLen (result_unwrap_or result 0) space.new }
    {
        let mut input = self.input;
        input.read(space)
    }

    // Writes a text to standard output. If that fails, nothing more is written, so that nothing
    // follows the missing part. Returns whether the text was written.
    pub fn write(&self, text: &[u8]) -> bool {
        if self.is_cut.get() {
            return false;
        }
        if self.output.write_all(text).is_ok() {
            return true;
        }
        self.is_cut.set(true);
        false
    }

    // Whether no write has failed, and standard output still takes something: nothing, at least.
    pub fn is_open(&self) -> bool {
        if self.is_cut.get() {
            return false;
        }
        if self.output.write_some(b"").is_ok() {
            return true;
        }
        self.is_cut.set(true);
        false
    }

    // Writes a text to standard error. If that fails, there is nobody to tell.
    pub fn tell(&self, text: &[u8]) {
        self.errors.write_all(text).is_ok();
    }

    // Whether somebody types, and sees the answers.
    pub fn is_typed_to(&self) -> bool {
        self.input.is_terminal() & self.output.is_terminal()
    }
}
