// The commands that show the map as a whole: tree, slots, svg and dot. What they draw comes from
// two public calls: the image that `write_image` writes, and the slots in tree order as `plain`
// finds them.
use crate::command::Drawing;
use crate::state::{Shell, image_space};
use slotshell_draw::dot::say_dot;
use slotshell_draw::lists::slot_space;
use slotshell_draw::outline::say_tree;
use slotshell_draw::svg::say_svg;
use slotshell_draw::table::say_table;

impl Shell<'_> {
    pub(crate) fn draw(&self, drawing: Drawing) {
        let mut image = image_space();
        let mut room = slot_space();
        let view = self.view(&mut image);
        let order = self.in_order(&mut room);
        match drawing {
            Drawing::Tree => say_tree(self.streams, view, &self.marks, order),
            Drawing::Slots => say_table(self.streams, view),
            Drawing::Svg => say_svg(self.streams, view, self.map.version, &self.marks, order),
            Drawing::Dot => say_dot(self.streams, view, &self.marks),
        }
    }
}
