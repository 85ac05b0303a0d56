// The commands about maps in which no two ranges overlap: disjoint, point and fit.
use crate::refused::Refused;
use crate::state::Shell;
use disjoint::DisjointMap;
use iset::Entry;
use lines::output::send;
use slotshell_text::work;
use words::ix::slot_at;

impl Shell<'_> {
    pub(crate) fn check_disjoint(&self) -> Result<(), Refused> {
        let disjoint = DisjointMap { map: self.map };
        disjoint.check(&self.nodes, &self.colours)?;
        send(self.streams, b"disjoint: no two ranges overlap\n");
        Ok(())
    }

    // Looks up the one entry that holds an address, and says how many nodes it entered.
    pub(crate) fn point(&self, address: u64) -> Result<(), Refused> {
        let disjoint = DisjointMap { map: self.map };
        let spot = disjoint.point(&self.nodes, &self.colours, address)?;
        match slot_at(spot.slot, self.map.count) {
            Some(slot) => {
                work::say_hit(self.streams);
                self.say_entry(slot);
                work::say_entered(self.streams, 1, spot.entered);
            }
            None => work::say_entered(self.streams, 0, spot.entered),
        }
        Ok(())
    }

    // Inserts an entry, if it overlaps no other.
    pub(crate) fn fit(&mut self, e: Entry) -> Result<(), Refused> {
        let disjoint = DisjointMap { map: self.map };
        let inserted = disjoint.insert(
            &mut self.nodes,
            &mut self.colours,
            e.start,
            e.end,
            e.value,
        )?;
        self.inserted(inserted);
        Ok(())
    }
}
