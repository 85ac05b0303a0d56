// A node: its entry, links and colour, as the image has them, its hull, and the height below it.
ghost use Rattle.std.specs.Prelude.{◌≡◌, true, cond, ◌≤◌, ◌<◌};
ghost use Rattle.image_rule.specs.Layout.{Bodies};
ghost use Rattle.image_rule.specs.Stored.{child_in_lem};
ghost use Rattle.slotshell_view.specs.View.{shows, entry_shown, child_shown, parent_shown, red_shown, hull_below_lem, hull_in_lem, hull_shown, height_below_lem, height_shown};

use image::layout::image_length;
use image::stored::{entry_in, interval_in, link_in, red_in};
use words::interval::Interval;
use words::ix::U;
use words::node::Entry;

// A view of a map: an image of it, how many entries it holds, and the slot of its root, or U.
#[derive(Clone, Copy)]
pub struct View<'a> {
    pub image: &'a [u8],
    pub count: u64,
    pub root: u64,
}

// Which of a slot's links is that to its child on a side.
fn place_of(left_side: bool) -> u64
    ensures { (result ≡ cond left_side 0 1) × (result < 3) }
{
    if left_side { 0 } else { 1 }
}

impl View<'_> {
    // Whether the bytes have the slots below the count, and this one is below it.
    pub(crate) fn has(self, slot: u64) -> bool
        ensures shown { result ≡ shows self.entry.image.now self.entry.count slot }
        ensures there { result ≡ true → Bodies self.entry.image.now self.entry.count × (slot < self.entry.count) }
    {
        slot < self.count
            && self.count <= 65535
            && image_length(self.count) <= self.image.len() as u64
    }

    pub fn entry_at(self, slot: u64) -> Entry
        ensures { result ≡ entry_shown self.entry.image.now self.entry.count slot }
    {
        if self.has(slot) {
            entry_in(self.image, self.count, slot)
        } else {
            Entry {
                start: 0,
                end: 0,
                value: 0,
            }
        }
    }

    pub(crate) fn child_in(self, slot: u64, left_side: bool) -> u64
        requires { Bodies self.image.now self.count × (slot < self.count) }
        ensures { result ≡ child_in_lem self.entry.image.now self.entry.count left_side slot }
    {
        link_in(self.image, self.count, slot, place_of(left_side))
    }

    pub fn child(self, slot: u64, left_side: bool) -> u64
        ensures { result ≡ child_shown self.entry.image.now self.entry.count left_side slot }
    {
        if self.has(slot) {
            self.child_in(slot, left_side)
        } else {
            U
        }
    }

    pub fn parent(self, slot: u64) -> u64
        ensures { result ≡ parent_shown self.entry.image.now self.entry.count slot }
    {
        if self.has(slot) {
            link_in(self.image, self.count, slot, 2)
        } else {
            U
        }
    }

    pub fn is_red(self, slot: u64) -> bool
        ensures { result ≡ red_shown self.entry.image.now self.entry.count slot }
    {
        self.has(slot) && red_in(self.image, self.count, slot)
    }

    // Returns the hull of the subtree at a link, or `none` if the link leads to no slot. No more
    // than `height` levels are looked at.
    fn hull_below(self, link: u64, none: Interval, height: u64) -> Interval
        requires { Bodies self.image.now self.count }
        ensures { result ≡ hull_below_lem self.entry.image.now self.entry.count height link none }
    {
        if height == 0 {
            return none;
        }
        if self.count <= link {
            return none;
        }
        let own = interval_in(self.image, self.count, link);
        let left = self.child_in(link, true);
        let right = self.child_in(link, false);
        let l = self.hull_below(left, own, height - 1);
        let r = self.hull_below(right, own, height - 1);
        own.extend(l).extend(r)
    }

    pub(crate) fn hull_in(self, slot: u64) -> Interval
        requires { Bodies self.image.now self.count × (slot < self.count) }
        ensures { result ≡ hull_in_lem self.entry.image.now self.entry.count slot }
    {
        let own = interval_in(self.image, self.count, slot);
        self.hull_below(slot, own, 32)
    }

    pub fn hull_at(self, slot: u64) -> Interval
        ensures { result ≡ hull_shown self.entry.image.now self.entry.count slot }
    {
        if self.has(slot) {
            self.hull_in(slot)
        } else {
            Interval { start: 0, end: 0 }
        }
    }

    // Returns how many nodes the longest way down from a link has, of at most `height`.
    fn height_below(self, link: u64, height: u64) -> u64
        requires { Bodies self.image.now self.count }
        ensures { (result ≡ height_below_lem self.entry.image.now self.entry.count height link) × (result ≤ height) }
    {
        if height == 0 {
            return 0;
        }
        if self.count <= link {
            return 0;
        }
        let left = self.child_in(link, true);
        let right = self.child_in(link, false);
        let l = self.height_below(left, height - 1);
        let r = self.height_below(right, height - 1);
        l.max(r) + 1
    }

    // Returns how many nodes the longest way down from the root has.
    pub fn height(self) -> u64
        ensures { result ≡ height_shown self.entry.image.now self.entry.count self.entry.root }
    {
        if self.has(self.root) {
            self.height_below(self.root, 32)
        } else {
            0
        }
    }
}
