// The judge of the store in an image: one pass over the links in the image's own bytes, as the
// check of a store makes it. The hull of a node is not compared with one that is stored. It is
// worked out from the node's own interval and its children's hulls. Nothing is written.
ghost use Rattle.std.specs.Prelude.{◌≡◌, true, ◌+◌, ◌≤◌, ◌<◌};
ghost use Rattle.audit.specs.Survey.{combined, no_nodes_lem, childless};
ghost use Rattle.image_rule.specs.Judge.{glance, whole_at, shaped};
ghost use Rattle.image_rule.specs.Layout.{Bodies, count_in_lem, laid_out_lem};
ghost use Rattle.image_rule.specs.Stored.{link_in, node_in_lem, is_good};

use crate::layout::{count_in, root_in};
use crate::stored::{link_in, node_in};
use audit::{Found, Node, combine, is_tied, no_nodes};
use words::interval::Interval;
use words::ix::U;

// Returns what is found of a node whose hull is worked out.
fn join(x: Node, l: Found, r: Found) -> Found
    requires { (l.size + r.size + 1 < 18446744073709551616) × (l.blacks + 1 < 18446744073709551616) }
    ensures { result ≡ combined (shaped x l r) l r }
{
    let own = x.interval;
    let left = l.hull;
    let right = r.hull;
    let hull = own.extend(left).extend(right);
    combine(
        Node {
            interval: own,
            hull,
            left: x.left,
            right: x.right,
            parent: x.parent,
            red: x.red,
        },
        l,
        r,
    )
}

// Whether a link below the slot `parent` leads to a slot that names `parent` and has no children.
// The height must also allow for the two undefined links below that slot.
fn is_leaf(image: &[u8], count: u64, link: u64, parent: u64, height: u64) -> bool
    requires { Bodies image.now count }
    ensures { result ≡ childless (link_in image.now count link 0) (link_in image.now count link 1) (link_in image.now count link 2) count height parent link }
{
    if link < count {
        let left = link_in(image, count, link, 0);
        let right = link_in(image, count, link, 1);
        let up = link_in(image, count, link, 2);
        (up == parent) & (left == U) & (right == U) & (link != U) & (1 < height)
    } else {
        false
    }
}

// Returns what is found of a node without children.
fn lone(x: Node) -> Found
    ensures { result ≡ combined (shaped x (no_nodes_lem true x.interval) (no_nodes_lem true x.interval)) (no_nodes_lem true x.interval) (no_nodes_lem true x.interval) }
{
    let own = x.interval;
    let none = no_nodes(true, own);
    join(x, none, none)
}

// Returns what is found of the subtree at a link below the slot `parent`, whose interval is
// `above`. The subtree fails if a path down has `height` nodes or more. Half of all nodes have no
// children and are judged at once.
#[cycle(below_glance_at)]
fn below(image: &[u8], count: u64, link: u64, parent: u64, above: Interval, height: u64) -> Found
    requires { Bodies image.now count × (height ≤ 33) }
    ensures { result ≡ glance (node_in_lem image.now count) count height parent above link }
{
    if is_leaf(image, count, link, parent, height) {
        lone(node_in(image, count, link))
    } else {
        glance_at(image, count, link, parent, above, height)
    }
}

// Returns the same as `below`, case by case.
#[cycle(below_glance_at)]
fn glance_at(
    image: &[u8],
    count: u64,
    link: u64,
    parent: u64,
    above: Interval,
    height: u64,
) -> Found
    requires { Bodies image.now count × (height ≤ 33) }
    ensures { result ≡ glance (node_in_lem image.now count) count height parent above link }
{
    if height == 0 {
        return no_nodes(false, above);
    }
    if link == U {
        return no_nodes(true, above);
    }
    if count <= link {
        return no_nodes(false, above);
    }
    let x = node_in(image, count, link);
    if is_tied(x, parent) {
        let own = x.interval;
        let l = below(image, count, x.left, link, own, height - 1);
        let r = below(image, count, x.right, link, own, height - 1);
        join(x, l, r)
    } else {
        no_nodes(false, above)
    }
}

// Whether the store of `count` entries below `root` passes.
fn is_whole(image: &[u8], count: u64, root: u64) -> bool
    requires { Bodies image.now count }
    ensures { result ≡ whole_at (node_in_lem image.now count) count root }
{
    let none = Interval { start: 0, end: 0 };
    let found = glance_at(image, count, root, U, none, 33);
    found.ok & (found.size == count) & !found.red
}

// Whether the store in an image passes the check, its hulls worked out.
pub fn judge(image: &[u8]) -> bool
    requires { (laid_out_lem image.now ≡ true) × (count_in_lem image.now ≤ 65535) }
    ensures { result ≡ is_good image.now }
{
    let count = count_in(image);
    let root = root_in(image);
    is_whole(image, count, root)
}
