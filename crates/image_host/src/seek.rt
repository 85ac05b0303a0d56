// The search for an address in an image that was judged: every entry once, in tree order, by the
// links. There is no stack but the calls themselves, at most one for each level of the tree.
ghost use Rattle.std.specs.Prelude.{◌≡◌, ◌+◌, ◌^◌, ◌<◌};
ghost use Rattle.image_rule.specs.Layout.{Bodies};
ghost use Rattle.image_rule.specs.Stored.{entry_in_lem, child_in_lem};
ghost use Rattle.image_rule.specs.Sought.{noted, sought};

use image::stored::{entry_in, link_in};
use image_rule::Seen;
use words::node::Entry;

// Returns what was seen, and then an entry: one hit more if the entry holds the address, and the
// entry's value if it is hit `k`.
fn note(entry: Entry, address: u64, k: u64, seen: Seen) -> Seen
    requires { seen.hits + 1 < 18446744073709551616 }
    ensures { result ≡ noted address k seen entry }
{
    if address < entry.end && entry.start <= address {
        let value = if seen.hits == k {
            entry.value
        } else {
            seen.value
        };
        return Seen {
            hits: seen.hits + 1,
            value,
        };
    }
    seen
}

// Returns what was seen, and then the entries below a link.
pub(crate) fn seek(
    image: &[u8],
    count: u64,
    link: u64,
    address: u64,
    k: u64,
    seen: Seen,
    height: u64,
) -> Seen
    requires { Bodies image.now count × (seen.hits + 2 ^ height < 18446744073709551616) }
    ensures { result ≡ sought (entry_in_lem image.now) (child_in_lem image.now count) count address k height link seen }
{
    if height == 0 {
        return seen;
    }
    if count <= link {
        return seen;
    }
    let left = link_in(image, count, link, 0);
    let right = link_in(image, count, link, 1);
    let before = seek(image, count, left, address, k, seen, height - 1);
    let here = note(entry_in(image, count, link), address, k, before);
    seek(image, count, right, address, k, here, height - 1)
}
