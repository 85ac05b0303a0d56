// Entries and maps, each to a line's end.
use lines::output::send;
use lines::streams::Streams;
use slotshell_say::say;
use words::node::Entry;
use words::pair::Pair;

pub fn say_entry(streams: &Streams, slot: u64, e: Entry) {
    say(
        streams,
        b"slot %  [%,%) %\n",
        &[slot, e.start, e.end, e.value],
    );
}

pub fn say_moved(streams: &Streams, p: Pair, e: Entry) {
    say(
        streams,
        b"moved: slot % -> %  [%,%) %\n",
        &[p.old, p.new, e.start, e.end, e.value],
    );
}

pub fn say_unmoved(streams: &Streams) {
    send(streams, b"moved: nothing\n");
}

// An entry that a plan would move.
pub fn say_planned(streams: &Streams, p: Pair, e: Entry) {
    say(
        streams,
        b"would move: slot % -> %  [%,%) %\n",
        &[p.old, p.new, e.start, e.end, e.value],
    );
}

pub fn say_idle_plan(streams: &Streams) {
    send(streams, b"would move: nothing\n");
}

pub fn say_gone(streams: &Streams, slot: u64, e: Entry) {
    say(
        streams,
        b"gone: slot %  [%,%) %\n",
        &[slot, e.start, e.end, e.value],
    );
}

pub fn say_removed(streams: &Streams, slot: u64, e: Entry) {
    say(
        streams,
        b"removed: slot %  [%,%) %\n",
        &[slot, e.start, e.end, e.value],
    );
}

pub fn say_map(streams: &Streams, count: u64, root: u64, version: u32) {
    say(
        streams,
        b"entries %, root @, version %\n",
        &[count, root, version as u64],
    );
}
