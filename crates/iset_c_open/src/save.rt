// Saving an opened map as an image. docs/IMAGE.md has the format.
ghost use Rattle.std.specs.Prelude.{◌≡◌, [], ◌∷◌};
ghost use Rattle.words.specs.Layouts.{as_eight};
ghost use Rattle.iset.specs.Maps.{map_of};
ghost use Rattle.iset_c.specs.Replies.{exit};
ghost use Rattle.iset_c_open.specs.Replies.{open_write_image_exit};

use iset::Map;
use iset_c::SHORT_ANSWER;
use iset_c::answer::answered;

// Writes a map as an image to the front of the output. Answer: how many bytes the image has.
pub fn open_write_image_in(
    count: u64,
    root: u64,
    nodes: &[u64],
    narrow: bool,
    colours: &[u8],
    out: &mut [u8],
    answer: &mut [u64],
) -> u64
    ensures { exit result answer.new (out.new ∷ [])
        ≡ open_write_image_exit answer.old (map_of count root) (as_eight narrow nodes.now) colours.now out.old }
{
    if answer.len() < 1 {
        return SHORT_ANSWER;
    }
    let map = Map {
        count,
        root,
        version: 0,
    };
    answered(map.open_write_image_in(nodes, narrow, colours, out), answer)
}
