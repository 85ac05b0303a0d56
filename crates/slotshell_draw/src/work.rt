// The work of a lookup beside its bound.
use lines::streams::Streams;
use slotshell_text::work;
use slotshell_view::nodes::View;
use words::interval::Span;

fn bound(h: u64, t: u64) -> u64 {
    let turns = h.saturating_mul(h.saturating_sub(1)) / 2;
    t.saturating_mul(turns).saturating_add(h)
}

// Writes hits and entered nodes of a lookup, the height, the number of entries that meet or touch
// its range, and the bound that they make.
pub fn say_bounded(streams: &Streams, view: View, range: Span, hits: u64, entered: u64) {
    let h = view.height();
    let t = view.touching(range);
    work::say_bounded(streams, hits, entered, h, t, bound(h, t));
}
