// The commands that number the slots anew: plan, tidy and renumber.
use crate::moved;
use crate::refused::Refused;
use crate::state::{Shell, front};
use slotshell_draw::lists::slot_space;
use slotshell_draw::marks::Marks;
use slotshell_say::say;

impl Shell<'_> {
    // Shows the plan that `propose` makes, and changes nothing.
    pub(crate) fn plan(&self) -> Result<(), Refused> {
        let mut plan = slot_space();
        let mut room = slot_space();
        self.map.propose(&self.nodes, &self.colours, &mut plan)?;
        self.say_plan(&plan, self.in_order(&mut room));
        Ok(())
    }

    // Renumbers by a plan: at the place of each slot its new one. Says which entries moved. A
    // renumbering keeps the tree order.
    pub(crate) fn renumber(&mut self, plan: &[u64]) -> Result<(), Refused> {
        let mut room = slot_space();
        let mut room_after = slot_space();
        let before = self.in_order(&mut room);
        self.map = self.map.renumber(&mut self.nodes, &mut self.colours, plan)?;
        let after = self.in_order(&mut room_after);
        self.marks = Marks {
            was: moved::in_order(before, &[], after),
            ..Marks::new()
        };
        self.say_moves(after);
        say(self.streams, b"version %\n", &[u64::from(self.map.version)]);
        Ok(())
    }

    // Renumbers by the plan that `propose` makes.
    pub(crate) fn tidy(&mut self) -> Result<(), Refused> {
        let mut plan = slot_space();
        self.map.propose(&self.nodes, &self.colours, &mut plan)?;
        self.renumber(front(&plan, self.map.count))
    }
}
