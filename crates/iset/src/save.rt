// Saves a map as an image, and loads it back. docs/IMAGE.md has the format.
#![tactic(auto, using(words::proofs::Refusals::number_pos, crate::proofs::Images::writable, crate::proofs::Images::loadable, crate::proofs::Layouts::capacity_same, crate::proofs::Layouts::counted), unfolding(crate::specs::Image::open_write_image_number, crate::specs::Image::write_image_number, crate::specs::Image::open_write_image_call, crate::specs::Image::write_image_call, crate::specs::Image::read_image_number, crate::specs::Image::read_image_call))]

ghost use Rattle.std.specs.Prelude.{◌≡◌, length};
ghost use Rattle.words.specs.Layouts.{as_eight};
ghost use Rattle.iset.specs.Effects.{effect, output};
ghost use Rattle.iset.specs.Check.{check_number};
ghost use Rattle.iset.specs.Build.{build_answer};
ghost use Rattle.iset.specs.Image.{open_write_image_number, write_answer, open_write_image_call, write_image_call, read_image_number, read_image_call};

use crate::{Map, next_version, sound_if};
use image::judge::judge;
use image::layout::{count_in, has_layout, image_length, root_in};
use image::load::load;
use image::write::write;
use words::node::capacity;
use words::refusal::Refusal;

// The first refusal of reading an image into node words and `bytes` colour bytes. Of the words it
// uses their number alone.
fn test_image(image: &[u8], nodes: &[u64], narrow: bool, bytes: usize) -> Result<(), Refusal>
    ensures { check_number result ≡ read_image_number (length (as_eight narrow nodes.now)) bytes image.now }
{
    sound_if(has_layout(image), Refusal::BadImage)?;
    sound_if(
        count_in(image) <= capacity(nodes.len(), narrow, bytes),
        Refusal::NoRoom,
    )?;
    sound_if(judge(image), Refusal::Broken)
}

impl Map {
    // The first refusal of writing the image of an opened store (see lib.rt) into an output of
    // `places` places.
    fn test_write(
        self,
        nodes: &[u64],
        narrow: bool,
        colours: &[u8],
        places: u64,
    ) -> Result<(), Refusal>
        ensures { check_number result ≡ open_write_image_number self (as_eight narrow nodes.now) colours.now places }
    {
        self.test_count(nodes, narrow, colours)?;
        sound_if(image_length(self.count) <= places, Refusal::ShortOutput)
    }

    // `write_image` for an opened store.
    pub fn open_write_image_in(
        self,
        nodes: &[u64],
        narrow: bool,
        colours: &[u8],
        out: &mut [u8],
    ) -> Result<u64, Refusal>
        ensures { output (write_answer result) out.new ≡ open_write_image_call self (as_eight narrow nodes.now) colours.now out.old }
    {
        let places = out.len() as u64;
        self.test_write(nodes, narrow, colours, places)?;
        write(nodes, narrow, colours, self.count, self.root, out);
        Ok(image_length(self.count))
    }

    // Writes the map as an image to the front of the output, and returns the image's length. Bytes
    // past the image are unchanged.
    pub fn write_image_in(
        self,
        nodes: &[u64],
        narrow: bool,
        colours: &[u8],
        out: &mut [u8],
    ) -> Result<u64, Refusal>
        ensures { output (write_answer result) out.new ≡ write_image_call self (as_eight narrow nodes.now) colours.now out.old }
    {
        self.check_in(nodes, narrow, colours)?;
        self.open_write_image_in(nodes, narrow, colours, out)
    }

    // Returns the map of an image, in the place of this map. Of this map only the version is read:
    // the new map has the next one. The image must have the layout of an image, the slices must
    // have room for its entries, and its store must pass the check, with the hulls worked out.
    // Slots and colour bits past the entries are unchanged. Nothing is written before all of this
    // is known.
    pub fn read_image_in(
        self,
        nodes: &mut [u64],
        narrow: bool,
        colours: &mut [u8],
        image: &[u8],
    ) -> Result<Map, Refusal>
        ensures { effect (build_answer self result) (as_eight narrow nodes.new) colours.new
            ≡ read_image_call self (as_eight narrow nodes.old) colours.old image.now }
    {
        test_image(image, nodes, narrow, colours.len())?;
        load(nodes, narrow, colours, image);
        Ok(Map {
            count: count_in(image),
            root: root_in(image),
            version: next_version(self.version),
        })
    }
}
