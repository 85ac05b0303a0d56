// The requests on a copy of the store. Those about images have bytes beside it.
pub mod apart;
mod build;
mod check;
mod host;
pub mod images;
mod insert;
mod load;
mod point;
mod read;
mod remove;
mod renumber;
mod reply;
pub mod store;
mod unload;
mod write;

use crate::map::reply::Reply;
use crate::room::front;
use crate::session::{Left, Session};

#[derive(Clone, Copy)]
pub enum Call<'a> {
    Store(store::Call<'a>),
    Apart(apart::Call),
    Image(images::Call),
}

// The call with the name and the numbers.
pub(crate) fn named<'a>(name: &[u8], numbers: &'a [u64]) -> Option<Call<'a>> {
    let call = if let Some(c) = store::named(name, numbers) {
        Call::Store(c)
    } else if let Some(c) = apart::named(name, numbers) {
        Call::Apart(c)
    } else {
        Call::Image(images::named(name, numbers)?)
    };
    Some(call)
}

// Makes the call on the copy, and prints the numbers of its answer.
fn answer(s: &mut Session, call: Call) -> Reply {
    let stored = s.stored;
    let mut store = s.copy.lent(stored);
    match call {
        Call::Store(c) => store::answer(c, &mut store, &mut s.out),
        Call::Apart(c) => apart::answer(c, &mut store, &mut s.out),
        Call::Image(images::Call::Write(room)) => {
            write::write(&store, front(&mut s.new_bytes, room), &mut s.out)
        }
        Call::Image(images::Call::Load(version)) => {
            let n = s.count;
            load::load(version, &mut store, front(&mut s.bytes, n), &mut s.out)
        }
        Call::Image(images::Call::Host(address, k)) => {
            let n = s.count;
            host::host(stored.map, address, k, front(&mut s.bytes, n), &mut s.out)
        }
    }
}

// What `commit` takes is the copy, but after an accepted `write` the image.
pub(crate) fn request(s: &mut Session, call: Call) {
    s.begin();
    let reply = answer(s, call);
    s.end(reply.map, reply.reach);
    if let Some(length) = reply.image {
        s.left = Some(Left::Bytes(length));
    }
}
