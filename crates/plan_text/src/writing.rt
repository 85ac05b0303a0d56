// Prints a plan, and what is wrong with one, through a lent buffer that goes out when it is full.
// `at` is where the next byte goes. Each call returns the place after what it wrote.
ghost use Rattle.std.specs.Prelude.{◌≡◌, length, ◌<◌};
ghost use Rattle.lines.specs.Output.{page, out_text};
ghost use Rattle.plan_text.specs.Text.{row, rows, on_line, form_text, high_text, again_text, missing_text, flaw_said, flaw_text};

use crate::reading::Flaw;
use lines::output::{put_byte, put_next, put_number, put_text};
use lines::streams::Streams;

// Writes the line of a slot.
fn put_row(streams: &Streams, out: &mut [u8], at: usize, old: u64, new: u64) -> usize
    ensures { page result out.new ≡ out_text (page at out.old) (row old new) }
{
    let a = put_number(streams, out, at, old);
    let b = put_next(streams, out, a, new);
    put_byte(streams, out, b, b'\n')
}

// Writes the line of each slot.
pub fn put_plan(streams: &Streams, out: &mut [u8], plan: &[u64]) -> usize
    ensures { page result out.new ≡ out_text (page 0 out.old) (rows 0 plan.now) }
{
    let mut to = 0;
    for old in 0..plan.len() {
        to = put_row(streams, out, to, old as u64, plan[old]);
    }
    to
}

// Writes `line N: `.
fn put_line(streams: &Streams, out: &mut [u8], at: usize, line: u64) -> usize
    ensures { page result out.new ≡ out_text (page at out.old) (on_line line) }
{
    let a = put_text(streams, out, at, b"line ");
    let b = put_number(streams, out, a, line);
    put_text(streams, out, b, b": ")
}

// Writes that a line names a slot that is not below the count.
fn put_high(streams: &Streams, out: &mut [u8], at: usize, line: u64, slot: u64, count: u64) -> usize
    ensures { page result out.new ≡ out_text (page at out.old) (high_text line slot count) }
{
    let a = put_line(streams, out, at, line);
    let b = put_text(streams, out, a, b"slot ");
    let c = put_number(streams, out, b, slot);
    let d = put_text(streams, out, c, b" is not below the count, ");
    put_number(streams, out, d, count)
}

// Writes that a line names a slot, `which` says whether old or new, that a line before it has
// named.
fn put_again(
    streams: &Streams,
    out: &mut [u8],
    at: usize,
    which: &[u8],
    line: u64,
    slot: u64,
    before: u64,
) -> usize
    ensures { page result out.new ≡ out_text (page at out.old) (again_text which.now line slot before) }
{
    let a = put_line(streams, out, at, line);
    let b = put_text(streams, out, a, which);
    let c = put_number(streams, out, b, slot);
    let d = put_text(streams, out, c, b" is on line ");
    let e = put_number(streams, out, d, before);
    put_text(streams, out, e, b" already")
}

// Writes that a line is not two numbers.
fn put_form(streams: &Streams, out: &mut [u8], at: usize, line: u64) -> usize
    ensures { page result out.new ≡ out_text (page at out.old) (form_text line) }
{
    let a = put_line(streams, out, at, line);
    put_text(
        streams,
        out,
        a,
        b"not two numbers with one space between them",
    )
}

// Writes that an old slot has no line.
fn put_missing(streams: &Streams, out: &mut [u8], at: usize, slot: u64) -> usize
    ensures { page result out.new ≡ out_text (page at out.old) (missing_text slot) }
{
    let a = put_text(streams, out, at, b"no line for old slot ");
    put_number(streams, out, a, slot)
}

// Writes what is wrong, after the place `at`.
fn put_said(streams: &Streams, out: &mut [u8], at: usize, flaw: Flaw) -> usize
    ensures { page result out.new ≡ out_text (page at out.old) (flaw_said flaw) }
{
    match flaw {
        Flaw::Form { line } => put_form(streams, out, at, line),
        Flaw::High { line, slot, count } => put_high(streams, out, at, line, slot, count),
        Flaw::OldAgain { line, slot, before } => put_again(
            streams,
            out,
            at,
            b"old slot ",
            line,
            slot,
            before,
        ),
        Flaw::NewAgain { line, slot, before } => put_again(
            streams,
            out,
            at,
            b"new slot ",
            line,
            slot,
            before,
        ),
        Flaw::Missing { slot } => put_missing(streams, out, at, slot),
    }
}

// Writes what is wrong with a plan, as what a program cannot do: `take the plan: ` and why.
pub fn put_flaw(streams: &Streams, out: &mut [u8], checked: Result<(), Flaw>) -> usize
    ensures { page result out.new ≡ out_text (page 0 out.old) (flaw_text checked) }
{
    let at = put_text(streams, out, 0, b"take the plan: ");
    match checked {
        Ok(()) => at,
        Err(flaw) => put_said(streams, out, at, flaw),
    }
}
