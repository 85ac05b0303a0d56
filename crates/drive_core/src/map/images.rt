// The requests about images, each a map as bytes (docs/IMAGE.md): `write`, `load` and
// `chost`.
use crate::given;
use crate::session::MOST_BYTES;

// `write` has its room, `load` the version of the map that it replaces, and `chost` the address and
// K.
#[derive(Clone, Copy)]
pub enum Call {
    Write(usize),
    Load(u32),
    Host(u64, u64),
}

// The call with the name and the numbers.
pub(crate) fn named(name: &[u8], numbers: &[u64]) -> Option<Call> {
    match (name, numbers) {
        (b"write ", [room]) => {
            let room = usize::try_from(*room).ok()?;
            if room <= MOST_BYTES {
                Some(Call::Write(room))
            } else {
                None
            }
        }
        (b"load ", [v]) => given::version(*v).map(Call::Load),
        (b"chost ", [address, k]) => Some(Call::Host(*address, *k)),
        _ => None,
    }
}
