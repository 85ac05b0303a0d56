// How long the numbers of a map are in print.
ghost use Rattle.std.specs.Prelude.{◌≤◌};

use slotshell_view::nodes::View;

// How many digits a number has.
pub(crate) fn digits(x: u64) -> u64 {
    x.checked_ilog10().map_or(1, |n| u64::from(n) + 1)
}

// The greatest address of a slot, or of its hull.
fn address_at(view: View, slot: u64) -> u64 {
    let e = view.entry_at(slot);
    let hull = view.hull_at(slot);
    e.start.max(e.end).max(hull.start).max(hull.end)
}

// How many digits the longest address has.
pub(crate) fn longest_address(view: View) -> u64 {
    let mut greatest = 0;
    for slot in 0..view.count {
        greatest = address_at(view, slot).max(greatest);
    }
    digits(greatest)
}

// How many digits the longest value has.
pub(crate) fn longest_value(view: View) -> u64 {
    let mut greatest = 0;
    for slot in 0..view.count {
        greatest = view.entry_at(slot).value.max(greatest);
    }
    digits(greatest)
}

// A number, or 0 if there is nothing to take room.
pub(crate) fn if_there(there: bool, size: u64) -> u64
    ensures { result ≤ size }
{
    if there { size } else { 0 }
}
