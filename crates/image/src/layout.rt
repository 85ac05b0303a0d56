// The layout of an image: count and root, and a table of contents whose every number follows from
// the count.
ghost use Rattle.std.specs.Prelude.{◌≡◌, true, ◌&&◌, ◌+◌, ◌≤◌, ◌<◌, length, eqb};
ghost use Rattle.bitvec.specs.Calls.{bytes_for};
ghost use Rattle.image_rule.specs.Layout.{links_at_lem, colours_at_lem, image_length_lem, count_in_lem, root_in_lem, row, table, spare_clear, laid_out_lem};

use bitvec::weight;
use little::u32_at;

// Returns how many bytes the colours of `count` slots take.
pub fn colour_bytes(count: u64) -> u64
    requires { count < 4294967296 }
    ensures { (result ≡ bytes_for count) × (result < 4294967296) }
{
    (count + 7) / 8
}

// Returns the place of the first link.
pub fn links_at(count: u64) -> u64
    requires { count < 4294967296 }
    ensures { result ≡ links_at_lem count }
{
    44 + count * 24
}

// Returns the place of the first colour byte.
pub fn colours_at(count: u64) -> u64
    requires { count < 4294967296 }
    ensures { result ≡ colours_at_lem count }
{
    44 + count * 36
}

// Returns how many bytes the image of a map with `count` entries has.
pub fn image_length(count: u64) -> u64
    requires { count < 4294967296 }
    ensures { result ≡ image_length_lem count }
{
    colours_at(count) + colour_bytes(count)
}

// Whether the row at a place is this one.
fn has_row(image: &[u8], at: usize, kind: u64, offset: u64, size: u64) -> bool
    requires { at + 12 ≤ length image.now }
    ensures { result ≡ row image.now at kind offset size }
{
    let a = u32_at(image, at);
    let b = u32_at(image, at + 4);
    let c = u32_at(image, at + 8);
    (a == kind) & (b == offset) & (c == size)
}

// Whether the table of contents is that of `count` entries.
fn has_table(image: &[u8], count: u64) -> bool
    requires { (44 ≤ length image.now) × (count < 4294967296) }
    ensures { result ≡ table image.now count }
{
    let entries = has_row(image, 8, 1, 44, count * 24);
    let links = has_row(image, 20, 2, links_at(count), count * 12);
    let colours = has_row(image, 32, 3, colours_at(count), colour_bytes(count));
    entries & links & colours
}

// Whether the bits of the last colour byte that belong to no slot are 0.
fn has_spare_clear(image: &[u8], count: u64) -> bool
    requires { 44 ≤ length image.now }
    ensures { result ≡ spare_clear image.now count }
{
    if count % 8 == 0 {
        true
    } else {
        image[image.len() - 1] < weight((count % 8) as usize)
    }
}

// Whether the table, the length and the spare bits are those of `count` entries.
fn is_laid(image: &[u8], count: u64) -> bool
    requires { (44 ≤ length image.now) × (count < 4294967296) }
    ensures { result ≡ (table image.now count && eqb (length image.now) (image_length_lem count) && spare_clear image.now count) }
{
    let whole = image.len() as u64 == image_length(count);
    has_table(image, count) & whole & has_spare_clear(image, count)
}

// Whether the bytes are laid out as an image. It looks at the count, the table, the length and the
// spare bits, and at nothing else.
pub fn has_layout(image: &[u8]) -> bool
    ensures { result ≡ laid_out_lem image.now }
{
    if image.len() < 44 {
        false
    } else {
        is_laid(image, u32_at(image, 0))
    }
}

// Returns the count of an image.
pub fn count_in(image: &[u8]) -> u64
    requires { laid_out_lem image.now ≡ true }
    ensures { result ≡ count_in_lem image.now }
{
    u32_at(image, 0)
}

// Returns the root of an image.
pub fn root_in(image: &[u8]) -> u64
    requires { laid_out_lem image.now ≡ true }
    ensures { result ≡ root_in_lem image.now }
{
    u32_at(image, 4)
}
