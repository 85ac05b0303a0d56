// Unloading a range of an opened store.
ghost use Rattle.std.specs.Prelude.{◌≡◌, [], ◌∷◌};
ghost use Rattle.words.specs.Layouts.{as_eight};
ghost use Rattle.iset.specs.Maps.{map_at};
ghost use Rattle.iset_c.specs.Replies.{exit};
ghost use Rattle.iset_c.specs.Ranges.{kinds, span_of};
ghost use Rattle.iset_c_open.specs.Replies.{open_unload_exit};

use crate::call::unload;
use iset::Map;
use iset_c::range::known_span;
use iset_c::{BAD_BOUND, SHORT_ANSWER};

// Removes every entry that intersects a range, always the first one in tree order. Answer: count,
// root, version, how many entries went.
pub fn open_unload_in(
    count: u64,
    root: u64,
    version: u32,
    nodes: &mut [u64],
    narrow: bool,
    colours: &mut [u8],
    lo_kind: u64,
    lo: u64,
    hi_kind: u64,
    hi: u64,
    answer: &mut [u64],
) -> u64
    ensures { exit result answer.new (as_eight narrow nodes.new ∷ colours.new ∷ [])
        ≡ open_unload_exit (kinds lo_kind hi_kind) answer.old (map_at count root version) (as_eight narrow nodes.old) colours.old 1 (span_of lo_kind lo hi_kind hi) }
{
    if answer.len() < 4 {
        return SHORT_ANSWER;
    }
    let Some(range) = known_span(lo_kind, lo, hi_kind, hi) else {
        return BAD_BOUND;
    };
    let map = Map {
        count,
        root,
        version,
    };
    unload(map, nodes, narrow, colours, 1, range, answer)
}
