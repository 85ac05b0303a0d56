// What a call on the map returns, besides the numbers that are printed.
use iset::Map;

// The map after the call; how many hulls changed; and the length of the image that it wrote, if it
// wrote one. A slot's hull is the least range that holds all entries of its subtree.
#[derive(Clone, Copy)]
pub struct Reply {
    pub map: Map,
    pub reach: u64,
    pub image: Option<usize>,
}

impl Reply {
    pub(crate) fn new(map: Map, reach: u64) -> Reply {
        Reply {
            map,
            reach,
            image: None,
        }
    }
}
