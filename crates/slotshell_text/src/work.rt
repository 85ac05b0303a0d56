// The work of a lookup.
use lines::output::send;
use lines::streams::Streams;
use slotshell_say::say;

// Before each hit.
pub fn say_hit(streams: &Streams) {
    send(streams, b"hit: ");
}

// Hits and entered nodes, the height h, the number t of entries that meet or touch the range, and
// the bound that they make.
pub fn say_bounded(streams: &Streams, hits: u64, entered: u64, h: u64, t: u64, bound: u64) {
    say(streams, b"hits %, nodes entered %; ", &[hits, entered]);
    say(
        streams,
        b"h %, t %, so at most h + t*h*(h-1)/2 = %\n",
        &[h, t, bound],
    );
}

pub fn say_entered(streams: &Streams, hits: u64, entered: u64) {
    say(streams, b"hits %, nodes entered %\n", &[hits, entered]);
}

// The plain lookup beside the two others, and how many nodes fewer the drain entered.
pub fn say_plain(streams: &Streams, hits: u64, visited: u64, entered: u64, fewer: u64, fast: u64) {
    say(streams, b"hits %, nodes looked at %\n", &[hits, visited]);
    say(
        streams,
        b"find enters %, that is % fewer",
        &[entered, fewer],
    );
    say(streams, b"; find_all enters %\n", &[fast]);
}
