// What the lines do: they list entries, which are then built into a map, and remove slots from it.
ghost use Rattle.std.specs.Prelude.{◌≡◌, Ok, ◌+◌, ◌*◌, ◌≤◌, length, [], ◌∷◌};
ghost use Rattle.std.proofs.lemmas.List.Edits.{sets};
ghost use Rattle.iset.specs.Effects.{effect};
ghost use Rattle.slotlist_core.specs.Working.{Listing, desk, job, room_for, entered_work, entered_list, listed_in};
ghost use Rattle.slotlist_core.specs.Working.{built_in, removal_in, settled_in, removed_in, line_in};

use crate::reading::Said;
use iset::{Map, Refusal};

// What the lines so far have led to: the number of entries in the list, or the map that was built.
#[derive(Clone, Copy)]
pub enum Work {
    Listing(usize),
    Mapped(Map),
}

// Whether there is room after n entries. At most 256 entries are listed, and no more than the slice
// holds.
fn has_room(n: usize, len: usize) -> bool
    ensures { result ≡ room_for n len }
{
    if n < 256 { n * 3 + 3 <= len } else { false }
}

// Writes an entry after n others, and returns how many there are then.
fn put_triple(n: usize, a: u64, b: u64, c: u64, entries: &mut [u64]) -> usize
    requires { n * 3 + 3 ≤ length entries.old }
    ensures { (result ≡ n + 1) × (entries.new ≡ sets entries.old (n * 3) (a ∷ b ∷ c ∷ [])) }
{
    entries[n * 3] = a;
    entries[n * 3 + 1] = b;
    entries[n * 3 + 2] = c;
    n + 1
}

// Lists one more entry after n of them.
fn list_entry(n: usize, a: u64, b: u64, c: u64, entries: &mut [u64]) -> Result<Work, Refusal>
    ensures { (job result ≡ entered_work (Listing n) (length entries.old))
        × (entries.new ≡ entered_list (Listing n) a b c entries.old) }
{
    if has_room(n, entries.len()) {
        Ok(Work::Listing(put_triple(n, a, b, c, entries)))
    } else {
        Err(Refusal::NoRoom)
    }
}

// Builds the map of the n entries that are listed.
fn build(n: usize, nodes: &mut [u64], colours: &mut [u8], entries: &[u64]) -> Result<Work, Refusal>
    ensures { effect (job result) nodes.new colours.new
        ≡ built_in nodes.old colours.old (listed_in n entries.now) }
{
    let m = n.min(entries.len() / 3);
    let map = Map::new().build(nodes, colours, &entries[..m * 3])?;
    Ok(Work::Mapped(map))
}

fn remove_slot(map: Map, k: u64, nodes: &mut [u64], colours: &mut [u8]) -> Result<Work, Refusal>
    ensures { effect (job result) nodes.new colours.new ≡ removal_in map nodes.old colours.old k }
{
    let removed = map.remove(nodes, colours, k)?;
    let left = removed.map;
    Ok(Work::Mapped(left))
}

impl Work {
    // An entry. After a removal it is refused.
    fn enter(self, a: u64, b: u64, c: u64, entries: &mut [u64]) -> Result<Work, Refusal>
        ensures { (job result ≡ entered_work (job (Ok self)) (length entries.old))
            × (entries.new ≡ entered_list (job (Ok self)) a b c entries.old) }
    {
        match self {
            Work::Listing(n) => list_entry(n, a, b, c, entries),
            Work::Mapped(_) => Err(Refusal::BadList),
        }
    }

    // The entries are complete. Builds the map, if it is not built yet.
    pub(crate) fn settle(
        self,
        nodes: &mut [u64],
        colours: &mut [u8],
        entries: &[u64],
    ) -> Result<Work, Refusal>
        ensures { effect (job result) nodes.new colours.new
            ≡ settled_in entries.now (effect (job (Ok self)) nodes.old colours.old) }
    {
        match self {
            Work::Listing(n) => build(n, nodes, colours, entries),
            Work::Mapped(map) => Ok(Work::Mapped(map)),
        }
    }

    // Removes a slot from the map, if one is built.
    fn remove_mapped(self, k: u64, nodes: &mut [u64], colours: &mut [u8]) -> Result<Work, Refusal>
        ensures { effect (job result) nodes.new colours.new
            ≡ removed_in k (effect (job (Ok self)) nodes.old colours.old) }
    {
        match self {
            Work::Listing(n) => Ok(Work::Listing(n)),
            Work::Mapped(map) => remove_slot(map, k, nodes, colours),
        }
    }

    fn remove(
        self,
        k: u64,
        nodes: &mut [u64],
        colours: &mut [u8],
        entries: &[u64],
    ) -> Result<Work, Refusal>
        ensures { effect (job result) nodes.new colours.new
            ≡ removed_in k (settled_in entries.now (effect (job (Ok self)) nodes.old colours.old)) }
    {
        let settled = self.settle(nodes, colours, entries)?;
        settled.remove_mapped(k, nodes, colours)
    }

    // Does what one more line says.
    fn line(
        self,
        said: Said,
        nodes: &mut [u64],
        colours: &mut [u8],
        entries: &mut [u64],
    ) -> Result<Work, Refusal>
        ensures { desk (job result) nodes.new colours.new entries.new
            ≡ line_in said (desk (job (Ok self)) nodes.old colours.old entries.old) }
    {
        match said {
            Said::Entry { start, end, value } => self.enter(start, end, value, entries),
            Said::Remove(k) => self.remove(k, nodes, colours, entries),
            Said::Other => Err(Refusal::BadList),
        }
    }
}

// Does what one more line says. After a refusal nothing changes.
pub(crate) fn take_line(
    work: Result<Work, Refusal>,
    said: Said,
    nodes: &mut [u64],
    colours: &mut [u8],
    entries: &mut [u64],
) -> Result<Work, Refusal>
    ensures { desk (job result) nodes.new colours.new entries.new
        ≡ line_in said (desk (job work) nodes.old colours.old entries.old) }
{
    let work = work?;
    work.line(said, nodes, colours, entries)
}
