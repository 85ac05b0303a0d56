// The command that unloads a range.
use crate::moved;
use crate::refused::Refused;
use crate::state::Shell;
use iset::{Query, Span};
use slotshell_draw::lists::slot_space;
use slotshell_draw::marks::Marks;
use slotshell_say::say;

impl Shell<'_> {
    // A lookup finds the entries that go, so that they can be shown. It is refused as the unloading
    // is. The others keep their order.
    pub(crate) fn unload(&mut self, range: Span) -> Result<(), Refused> {
        let mut room = slot_space();
        let mut room_before = slot_space();
        let mut room_after = slot_space();
        let (_, gone) = self.drain(Query::Overlap(range), self.map.fresh(), &mut room)?;
        let before = self.in_order(&mut room_before);
        self.say_gone(gone);
        let a = self
            .map
            .unload(&mut self.nodes, &mut self.colours, 1, range)?;
        self.map = a.map;
        let after = self.in_order(&mut room_after);
        self.marks = Marks {
            was: moved::in_order(before, gone, after),
            ..Marks::new()
        };
        self.say_moves(after);
        say(
            self.streams,
            b"unloaded %, version %\n",
            &[a.gone, u64::from(self.map.version)],
        );
        Ok(())
    }
}
