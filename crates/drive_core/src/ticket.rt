// `ticket SLOT`: a ticket for a slot, of the store's map.
use crate::session::Session;

pub(crate) fn request(s: &mut Session, slot: u64) {
    let t = s.stored.map.ticket(slot);
    s.out.line(0, &[t.slot, t.version as u64]);
}
