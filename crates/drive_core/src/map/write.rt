// `write ROOM`: writes the store as an image into an output of ROOM bytes.
use crate::answer::Output;
use crate::map::reply::Reply;
use crate::room::Store;

// At first each place of the output holds a number that shows whether the call left it unchanged.
// After the numbers the whole output is printed. A refused call shows the length 0.
pub(crate) fn write(s: &Store, image: &mut [u8], out: &mut Output) -> Reply {
    image.fill(238);
    let (no, length) = match s.map.write_image_in(s.nodes, s.narrow, s.colours, image) {
        Ok(length) => (0, Some(length)),
        Err(why) => (why.number(), None),
    };
    out.numbers(no, &[length.unwrap_or(0)]);
    out.list(image);
    Reply {
        image: length.map(|n| n as usize),
        ..Reply::new(s.map, 0)
    }
}
