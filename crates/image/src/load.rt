// Reading an image that was judged: the slots, then the hulls, then the colours.
ghost use Rattle.std.specs.Prelude.{◌≡◌, true, ◌≤◌, ◌<◌};
ghost use Rattle.words.specs.Layouts.{as_eight, HoldsIn};
ghost use Rattle.words.specs.Nodes.{put_node_lem, HoldsBits};
ghost use Rattle.image_rule.specs.Judge.{worked};
ghost use Rattle.image_rule.specs.Layout.{Bodies, count_in_lem, root_in_lem, laid_out_lem};
ghost use Rattle.image_rule.specs.Stored.{interval_in_lem, entry_in_lem, link_in, LinksFit, unpacked, painted, loaded_words, loaded_colours};

use crate::layout::{count_in, root_in};
use crate::stored::{entry_in, link_in, red_in};
use bitvec::put_bit;
use words::interval::Interval;
use words::node::{child_of, put_node, update_subtree_interval};

// Writes all words of one slot. Its own interval stands for its hull until that is worked out.
fn unpack_slot(nodes: &mut [u64], narrow: bool, image: &[u8], count: u64, s: u64)
    requires { HoldsIn narrow nodes.old count × Bodies image.now count × LinksFit narrow image.now count × (s < count) }
    ensures { as_eight narrow nodes.new ≡ put_node_lem (as_eight narrow nodes.old) s (entry_in_lem image.now s) (interval_in_lem image.now s) (link_in image.now count s 0) (link_in image.now count s 1) (link_in image.now count s 2) }
{
    let e = entry_in(image, count, s);
    let own = Interval {
        start: e.start,
        end: e.end,
    };
    let left = link_in(image, count, s, 0);
    let right = link_in(image, count, s, 1);
    let up = link_in(image, count, s, 2);
    put_node(nodes, narrow, s, e, own, left, right, up);
}

// Writes the words of all slots.
fn unpack(nodes: &mut [u64], narrow: bool, image: &[u8], count: u64)
    requires { HoldsIn narrow nodes.old count × Bodies image.now count × LinksFit narrow image.now count }
    ensures { as_eight narrow nodes.new ≡ unpacked image.now count count (as_eight narrow nodes.old) }
{
    for s in 0..count {
        unpack_slot(nodes, narrow, image, count, s);
    }
}

// Works out the hulls below a link and writes them, children first. In a store that was judged each
// slot is entered once.
fn work(nodes: &mut [u64], narrow: bool, count: u64, link: u64, height: u64)
    requires { HoldsIn narrow nodes.old count }
    ensures { as_eight narrow nodes.new ≡ worked count height (as_eight narrow nodes.old) link }
{
    if height == 0 {
        return;
    }
    if count <= link {
        return;
    }
    let left = child_of(nodes, narrow, link, true);
    let right = child_of(nodes, narrow, link, false);
    work(nodes, narrow, count, left, height - 1);
    work(nodes, narrow, count, right, height - 1);
    update_subtree_interval(nodes, narrow, count, link);
}

// Writes the colour bits of all slots, and no other bit.
fn paint(colours: &mut [u8], image: &[u8], count: u64)
    requires { HoldsBits colours.old count × Bodies image.now count }
    ensures { colours.new ≡ painted image.now count count colours.old }
{
    for s in 0..count {
        let red = red_in(image, count, s);
        put_bit(colours, s as usize, red);
    }
}

// Writes the map of an image to the words and the colours. Words and bits from the count up stay
// unchanged. The links of an image that was judged good fit the nodes of either layout (`links_fit`
// of image_rule/proofs/Fitting).
pub fn load(nodes: &mut [u64], narrow: bool, colours: &mut [u8], image: &[u8])
    requires { (laid_out_lem image.now ≡ true) × LinksFit narrow image.now (count_in_lem image.now) × HoldsIn narrow nodes.old (count_in_lem image.now) × HoldsBits colours.old (count_in_lem image.now) }
    ensures { (as_eight narrow nodes.new ≡ loaded_words image.now (count_in_lem image.now) (root_in_lem image.now) (as_eight narrow nodes.old)) × (colours.new ≡ loaded_colours image.now (count_in_lem image.now) colours.old) }
{
    let count = count_in(image);
    let root = root_in(image);
    unpack(nodes, narrow, image, count);
    work(nodes, narrow, count, root, 33);
    paint(colours, image, count);
}
