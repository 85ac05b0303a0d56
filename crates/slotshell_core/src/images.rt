// The commands that save the map as an image, and load it back.
use crate::refused::Refused;
use crate::state::Shell;
use lines::output::send;
use slotshell_draw::marks::Marks;
use slotshell_say::say;

impl Shell<'_> {
    pub(crate) fn save(&mut self) -> Result<(), Refused> {
        let length = self
            .map
            .write_image(&self.nodes, &self.colours, &mut self.image)?;
        self.saved = length as usize;
        say(
            self.streams,
            b"saved: entries %, bytes %\n",
            &[self.map.count, length],
        );
        Ok(())
    }

    pub(crate) fn load(&mut self) -> Result<(), Refused> {
        let n = self.image.len().min(self.saved);
        self.map = self
            .map
            .read_image(&mut self.nodes, &mut self.colours, &self.image[..n])?;
        self.marks = Marks::new();
        send(self.streams, b"loaded: ");
        self.say_map();
        Ok(())
    }
}
