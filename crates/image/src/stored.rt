// What an image holds of a slot, read from its bytes.
ghost use Rattle.std.specs.Prelude.{◌≡◌, ◌<◌};
ghost use Rattle.image_rule.specs.Layout.{Bodies};
ghost use Rattle.image_rule.specs.Stored.{interval_in_lem, entry_in_lem, link_in, red_in_lem, node_in_lem};

use audit::Node;
use bitvec::bit_at;
use little::{u32_at, u64_at};
use words::interval::Interval;
use words::node::Entry;

pub fn interval_in(image: &[u8], count: u64, slot: u64) -> Interval
    requires { Bodies image.now count × (slot < count) }
    ensures { result ≡ interval_in_lem image.now slot }
{
    let at = (44 + slot * 24) as usize;
    Interval {
        start: u64_at(image, at),
        end: u64_at(image, at + 8),
    }
}

pub fn entry_in(image: &[u8], count: u64, slot: u64) -> Entry
    requires { Bodies image.now count × (slot < count) }
    ensures { result ≡ entry_in_lem image.now slot }
{
    let at = (44 + slot * 24) as usize;
    Entry {
        start: u64_at(image, at),
        end: u64_at(image, at + 8),
        value: u64_at(image, at + 16),
    }
}

// Returns a link of a slot: the left one at j = 0, the right one at 1, the parent at 2.
pub fn link_in(image: &[u8], count: u64, slot: u64, j: u64) -> u64
    requires { Bodies image.now count × (slot < count) × (j < 3) }
    ensures { result ≡ link_in image.now count slot j }
{
    u32_at(image, (44 + count * 24 + slot * 12 + j * 4) as usize)
}

// Whether a slot is red.
pub fn red_in(image: &[u8], count: u64, slot: u64) -> bool
    requires { Bodies image.now count × (slot < count) }
    ensures { result ≡ red_in_lem image.now count slot }
{
    bit_at(image, ((44 + count * 36) * 8 + slot) as usize)
}

// Returns the node of a slot, with its own interval in the place of a hull.
pub fn node_in(image: &[u8], count: u64, slot: u64) -> Node
    requires { Bodies image.now count × (slot < count) }
    ensures { result ≡ node_in_lem image.now count slot }
{
    let own = interval_in(image, count, slot);
    Node {
        interval: own,
        hull: own,
        left: link_in(image, count, slot, 0),
        right: link_in(image, count, slot, 1),
        parent: link_in(image, count, slot, 2),
        red: red_in(image, count, slot),
    }
}
