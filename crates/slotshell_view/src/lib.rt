// What is shown of a map: read from an image of it, the bytes that the public call `write_image`
// writes (docs/IMAGE.md). An image has entries, links and colours. Hulls, the height, the walk of a
// lookup and the number of entries that touch a range follow from these.
//
// Every function takes any bytes and any numbers. If the bytes have no such slot, it has no links,
// and its entry and its hull are zeros.
#![tactic(auto)]

pub mod lookups;
pub mod nodes;
