// `chost ADDRESS K`: the three calls that look an address up in the image that `bytes` gave.
use crate::answer::Output;
use crate::map::reply::Reply;
use image_host::{image_count, image_refusal, image_value};
use iset::Map;

// What the calls return, in their order. The refusal's number is that of the third, so it is
// printed last, and the count in its place.
pub(crate) fn host(m: Map, address: u64, k: u64, image: &[u8], out: &mut Output) -> Reply {
    let count = image_count(image, address);
    let value = image_value(image, address, k);
    let no = image_refusal(image, address, k);
    out.numbers(count, &[value, no]);
    Reply::new(m, 0)
}
