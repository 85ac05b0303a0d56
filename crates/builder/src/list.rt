// The input of a build: a list of triples of start, end and value. The tests of the list are here
// too.
ghost use Rattle.std.specs.Prelude.{◌≡◌, ◌+◌, ◌*◌, ◌≤◌, length};
ghost use Rattle.builder.specs.Input.{interval_of_lem, entry_of, proper_at, in_order_lem, all_proper_lem, sorted};

use words::interval::Interval;
use words::node::Entry;

pub fn interval_at(list: &[u64], k: usize) -> Interval
    requires { k * 3 + 3 ≤ length list.now }
    ensures { result ≡ interval_of_lem list.now k }
{
    Interval {
        start: list[k * 3],
        end: list[k * 3 + 1],
    }
}

pub fn entry_at(list: &[u64], k: usize) -> Entry
    requires { k * 3 + 3 ≤ length list.now }
    ensures { result ≡ entry_of list.now k }
{
    Entry {
        start: list[k * 3],
        end: list[k * 3 + 1],
        value: list[k * 3 + 2],
    }
}

// Whether the start of triple k is below its end.
fn is_proper_at(list: &[u64], k: usize) -> bool
    requires { k * 3 + 3 ≤ length list.now }
    ensures { result ≡ proper_at list.now k }
{
    let i = interval_at(list, k);
    i.is_proper()
}

// Whether triple k is not after the next one.
fn in_order(list: &[u64], k: usize) -> bool
    requires { k * 3 + 6 ≤ length list.now }
    ensures { result ≡ in_order_lem list.now k }
{
    let a = interval_at(list, k);
    let b = interval_at(list, k + 1);
    a <= b
}

// Whether every start is below its end.
pub fn all_proper(list: &[u64]) -> bool
    ensures { result ≡ all_proper_lem list.now }
{
    let n = list.len() / 3;
    for k in 0..n {
        if !is_proper_at(list, k) {
            return false;
        }
    }
    true
}

// Whether no triple is after the next one. The order is by start, then by end.
pub fn sorted(list: &[u64]) -> bool
    ensures { result ≡ sorted list.now }
{
    let n = list.len() / 3;
    for k in 0..n.saturating_sub(1) {
        if !in_order(list, k) {
            return false;
        }
    }
    true
}
