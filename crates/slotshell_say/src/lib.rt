// A text with numbers in it, on standard output. Each public function writes before it returns, and
// returns nothing. After a failed write nothing more is written, so that nothing follows the
// missing part (lines::streams).
#![tactic(auto, unfolding(crate::specs::Said::out_link, crate::specs::Said::out_piece, crate::specs::Said::out_other, crate::specs::Said::taken))]

ghost use Rattle.std.specs.Prelude.{◌≡◌, ◌≤◌, length, get_or};
ghost use Rattle.lines.specs.Output.{page};
ghost use Rattle.slotshell_say.specs.Said.{out_link, out_piece, taken, out_said};

use lines::output;
use lines::streams::Streams;
use words::ix::U;

// Room for a piece of text. It is written out when it is full.
fn space() -> [u8; 256]
    ensures { 256 ≡ length result }
{
    [0; 256]
}

// The number at a place, or 0 if there is none.
fn number_at(numbers: &[u64], k: usize) -> u64
    ensures { result ≡ get_or numbers.now k 0 }
{
    numbers.get(k).copied().unwrap_or(0)
}

// Writes a link: `-` if it leads nowhere.
fn put_link(streams: &Streams, out: &mut [u8], at: usize, x: u64) -> usize
    ensures { page result out.new ≡ out_link (page at out.old) x }
{
    if x == U {
        output::put_byte(streams, out, at, b'-')
    } else {
        output::put_number(streams, out, at, x)
    }
}

// Writes a byte of a text. `%` stands for the number x, and `@` for x as a link.
fn put(streams: &Streams, out: &mut [u8], at: usize, b: u8, x: u64) -> usize
    ensures { page result out.new ≡ out_piece (page at out.old) b x }
{
    match b {
        b'%' => output::put_number(streams, out, at, x),
        b'@' => put_link(streams, out, at, x),
        _ => output::put_byte(streams, out, at, b),
    }
}

// How many numbers a byte of a text takes.
fn taken_by(b: u8) -> usize
    ensures { (result ≡ taken b) × (result ≤ 1) }
{
    usize::from(matches!(b, b'%' | b'@'))
}

fn put_all(streams: &Streams, out: &mut [u8], text: &[u8], numbers: &[u64]) -> usize
    ensures { page result out.new ≡ out_said (page 0 out.old) text.now numbers.now }
{
    let mut to = 0;
    let mut k = 0;
    for &b in text {
        to = put(streams, out, to, b, number_at(numbers, k));
        k += taken_by(b);
    }
    to
}

// Writes a text. Each `%` in it stands for the next number, and each `@` for the next number as a
// link.
pub fn say(streams: &Streams, text: &[u8], numbers: &[u64]) {
    let mut out = space();
    let to = put_all(streams, &mut out, text, numbers);
    output::flush(streams, &out, to);
}

// Writes n spaces.
pub fn indent(streams: &Streams, n: u64) {
    for _ in 0..n {
        output::send(streams, b" ");
    }
}
