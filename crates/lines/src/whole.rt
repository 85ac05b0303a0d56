// Standard input as a whole, for programs whose input is not lines.
ghost use Rattle.std.specs.Prelude.{◌≤◌, length, IfOk, IfErr};

use crate::streams::Streams;
use std::io;

// A read failed. So many bytes had been read before it.
#[derive(Clone, Copy)]
pub struct Cut {
    pub len: usize,
    pub error: io::Error,
}

// Reads to the end of the input, or until the space is full. Returns how many bytes were read, also
// if a read failed.
pub fn read_all(streams: &Streams, space: &mut [u8]) -> Result<usize, Cut>
    ensures whole { IfOk result (λ len. len ≤ length space.new) }
    ensures cut { IfErr result (λ cut. cut.len ≤ length space.new) }
{
    let mut at = 0;
    while at < space.len() {
        let n = match streams.read(&mut space[at..]) {
            Ok(n) => n,
            Err(error) => return Err(Cut { len: at, error }),
        };
        if n == 0 {
            break;
        }
        at += n;
    }
    Ok(at)
}
