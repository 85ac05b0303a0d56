// Saving a map as an image, and loading it back. docs/IMAGE.md has the format.
ghost use Rattle.std.specs.Prelude.{◌≡◌, [], ◌∷◌};
ghost use Rattle.words.specs.Layouts.{as_eight};
ghost use Rattle.iset.specs.Maps.{map_at, map_of};
ghost use Rattle.words.specs.Ix.{U};
ghost use Rattle.iset_c.specs.Replies.{exit, write_image_exit, read_image_exit};

use crate::SHORT_ANSWER;
use crate::answer::answered;
use iset::Map;
use words::ix::U;

// Writes a map as an image to the front of the output. Answer: how many bytes the image has.
pub fn write_image_in(
    count: u64,
    root: u64,
    nodes: &[u64],
    narrow: bool,
    colours: &[u8],
    out: &mut [u8],
    answer: &mut [u64],
) -> u64
    ensures { exit result answer.new (out.new ∷ [])
        ≡ write_image_exit answer.old (map_of count root) (as_eight narrow nodes.now) colours.now out.old }
{
    if answer.len() < 1 {
        return SHORT_ANSWER;
    }
    let map = Map {
        count,
        root,
        version: 0,
    };
    answered(map.write_image_in(nodes, narrow, colours, out), answer)
}

// Reads the map of an image, in the place of a map of the given version. Answer: count, root,
// version.
pub fn read_image_in(
    version: u32,
    nodes: &mut [u64],
    narrow: bool,
    colours: &mut [u8],
    image: &[u8],
    answer: &mut [u64],
) -> u64
    ensures { exit result answer.new (as_eight narrow nodes.new ∷ colours.new ∷ [])
        ≡ read_image_exit answer.old (map_at 0 U version) (as_eight narrow nodes.old) colours.old image.now }
{
    if answer.len() < 3 {
        return SHORT_ANSWER;
    }
    let old = Map {
        count: 0,
        root: U,
        version,
    };
    answered(old.read_image_in(nodes, narrow, colours, image), answer)
}
