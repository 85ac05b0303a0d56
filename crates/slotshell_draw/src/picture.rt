// A picture of the tree: what is drawn, and where to.
use crate::marks::Marks;
use lines::streams::Streams;
use slotshell_text::note::Change;
use slotshell_view::nodes::View;

// The view of the map, its marks, and the nodes that the last lookup entered.
#[derive(Clone, Copy)]
pub(crate) struct Picture<'a> {
    pub streams: &'a Streams,
    pub view: View<'a>,
    pub marks: &'a Marks,
    pub entered: &'a [u64],
}

// What is marked at one slot: what the last change did to its entry, and whether the node was
// entered.
#[derive(Clone, Copy)]
pub(crate) struct Note {
    pub change: Option<Change>,
    pub entered: bool,
}

impl Picture<'_> {
    pub(crate) fn note_at(self, slot: u64) -> Note {
        Note {
            change: self.marks.change_at(slot),
            entered: self.entered.contains(&slot),
        }
    }
}
