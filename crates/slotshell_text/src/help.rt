// The help: all commands, or the one line for a line that is not understood.
use lines::output::send;
use lines::streams::Streams;

pub fn say_all(streams: &Streams) {
    let lines: [&[u8]; 21] = [
        b"build START END VALUE ..   a new map of these entries, sorted\n",
        b"insert START END VALUE     one entry more\n",
        b"remove SLOT                one entry less; other entries may move\n",
        b"unload RANGE               removes the entries that meet the range\n",
        b"plan, tidy                 numbers the slots in tree order: shows it, does it\n",
        b"renumber NEW NEW ..        numbers the slots by a plan: NEW for slot 0, 1 ..\n",
        b"save, load                 the map as an image, and back from it\n",
        b"tree                       the tree in text\n",
        b"slots                      a table of the slots\n",
        b"svg, dot                   the tree as an SVG or a DOT picture\n",
        b"check                      is the store sound\n",
        b"find RANGE, at ADDRESS     the entries that meet the range, and the work\n",
        b"trace RANGE                that walk, node by node\n",
        b"plain RANGE                the same without pruning\n",
        b"exact START END            the entries equal to [START,END)\n",
        b"ticket SLOT, read TICKET   a ticket, and the entry through it\n",
        b"disjoint                   do no two ranges overlap; if so:\n",
        b"point ADDRESS              the one entry that holds it, by one way down\n",
        b"fit START END VALUE        one entry more, if it overlaps no other\n",
        b"help, quit\n",
        b"A RANGE is [20,25), (20,25], [20,..) or the like, or .. for everything.\n",
    ];
    for line in lines {
        send(streams, line);
    }
}

pub fn say_greeting(streams: &Streams) {
    send(
        streams,
        b"An empty map, with room for 256 entries. help lists the commands, quit ends.\n",
    );
}

pub fn say_unknown(streams: &Streams) {
    send(
        streams,
        b"not understood; type help for the commands, which are in small letters\n",
    );
}

// How a command is used that takes something after its name. Those that take a range have one
// usage.
#[derive(Clone, Copy)]
pub enum Usage {
    Build,
    Insert,
    Remove,
    At,
    Exact,
    Ticket,
    Read,
    Renumber,
    Point,
    Fit,
    Range,
}

impl Usage {
    // The line that says it.
    fn text(self) -> &'static [u8] {
        match self {
            Usage::Build => b"usage: build START END VALUE .., as in: build 10 20 1  10 30 2\n",
            Usage::Insert => b"usage: insert START END VALUE, as in: insert 10 20 7\n",
            Usage::Remove => b"usage: remove SLOT, as in: remove 1\n",
            Usage::At => b"usage: at ADDRESS, as in: at 20\n",
            Usage::Exact => b"usage: exact START END, as in: exact 10 20\n",
            Usage::Ticket => b"usage: ticket SLOT, as in: ticket 4\n",
            Usage::Read => b"usage: read TICKET, as in: read 1\n",
            Usage::Renumber => b"usage: renumber NEW NEW .., as in: renumber 1 0\n",
            Usage::Point => b"usage: point ADDRESS, as in: point 20\n",
            Usage::Fit => b"usage: fit START END VALUE, as in: fit 10 20 7\n",
            Usage::Range =>
                b"usage: find, trace, plain or unload, and a range, as in: find [20,25); one address is: at 20\n",
        }
    }
}

pub fn say_usage(streams: &Streams, usage: Usage) {
    send(streams, usage.text());
}
