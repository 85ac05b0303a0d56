// `load VERSION`: reads the image that `bytes` gave into the slices of the store, in the place of a
// map of that version.
use crate::answer::Output;
use crate::map::build;
use crate::map::reply::Reply;
use crate::room::Store;
use iset::Map;
use words::ix::U;

// Of the map that is replaced only the version is read.
pub(crate) fn load(version: u32, s: &mut Store, image: &[u8], out: &mut Output) -> Reply {
    let old = Map {
        count: 0,
        root: U,
        version,
    };
    let a = old.read_image_in(s.nodes, s.narrow, s.colours, image);
    let (no, map) = build::built(a, version);
    out.numbers(no, &[map.count, map.root, map.version as u64]);
    Reply::new(map, 0)
}
