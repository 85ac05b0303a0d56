// What a program says of an image that it cannot take.
use lines::output::complain;
use lines::streams::Streams;

// Writes a line to standard error: the program's name, and why the image is refused. The number is
// that of a refusal of `Map::read_image`: 12, 1 or 2.
pub fn refuse_image(streams: &Streams, name: &[u8], why: u64) {
    match why {
        12 => complain(
            streams,
            name,
            b"take the image: refused 12, it has not the layout of an image",
        ),
        2 => complain(
            streams,
            name,
            b"take the image: refused 2, its store does not pass the check",
        ),
        _ => complain(
            streams,
            name,
            b"take the image: refused 1, it is longer than the image of 65,535 entries",
        ),
    }
}
