// Runs the bit calls at their limits. Each call prints one line. Before the colon are the number of
// bytes lent and the call with its length, place and bit. After it are the refusal's number, the
// bit read, the length, and the three bytes afterwards.
#![tactic(auto)]

ghost use Rattle.std.specs.Prelude.{◌≤◌};

use bitvec::BitVec;
use lines::output;
use lines::streams::Streams;
use words::refusal::Refusal;

// The bytes that each call starts from: their bits, from bit 0 on, are 10100101 01011010 11110000.
fn pattern() -> [u8; 3] {
    [165, 90, 15]
}

fn number(streams: &Streams, x: u64) {
    output::send(streams, b" ");
    output::send_number(streams, x);
}

fn bit(streams: &Streams, v: bool) {
    number(streams, u64::from(v));
}

fn finish(streams: &Streams, no: u64, v: bool, len: usize, bytes: &[u8]) {
    output::send(streams, b" :");
    number(streams, no);
    bit(streams, v);
    number(streams, len as u64);
    output::send(streams, b" @");
    for &b in bytes {
        number(streams, u64::from(b));
    }
    output::send(streams, b"\n");
}

fn show(streams: &Streams, a: Result<(bool, BitVec), Refusal>, given: usize, bytes: &[u8]) {
    match a {
        Ok((v, now)) => finish(streams, 0, v, now.len, bytes),
        Err(why) => finish(streams, why.number(), false, given, bytes),
    }
}

fn call(streams: &Streams, n: usize, name: &[u8], len: usize) {
    output::send_number(streams, n as u64);
    output::send(streams, name);
    number(streams, len as u64);
}

// Makes the call with the first n bytes lent to it. The next five functions do the same for the
// other calls.
fn get(streams: &Streams, n: usize, len: usize, i: usize)
    requires { n ≤ 3 }
{
    let bytes = pattern();
    call(streams, n, b" get", len);
    number(streams, i as u64);
    let a = BitVec { len }.get(&bytes[..n], i);
    show(streams, a, len, &bytes);
}

fn set(streams: &Streams, n: usize, len: usize, i: usize, v: bool)
    requires { n ≤ 3 }
{
    let mut bytes = pattern();
    call(streams, n, b" set", len);
    number(streams, i as u64);
    bit(streams, v);
    let a = BitVec { len }.set(&mut bytes[..n], i, v);
    show(streams, a, len, &bytes);
}

fn push(streams: &Streams, n: usize, len: usize, v: bool)
    requires { n ≤ 3 }
{
    let mut bytes = pattern();
    call(streams, n, b" push", len);
    bit(streams, v);
    let a = BitVec { len }.push(&mut bytes[..n], v);
    show(streams, a, len, &bytes);
}

fn pop(streams: &Streams, n: usize, len: usize)
    requires { n ≤ 3 }
{
    let bytes = pattern();
    call(streams, n, b" pop", len);
    let a = BitVec { len }.pop(&bytes[..n]);
    show(streams, a, len, &bytes);
}

fn swap_remove(streams: &Streams, n: usize, len: usize, i: usize)
    requires { n ≤ 3 }
{
    let mut bytes = pattern();
    call(streams, n, b" swap_remove", len);
    number(streams, i as u64);
    let a = BitVec { len }.swap_remove(&mut bytes[..n], i);
    show(streams, a, len, &bytes);
}

fn from_elem(streams: &Streams, n: usize, len: usize, v: bool)
    requires { n ≤ 3 }
{
    let mut bytes = pattern();
    call(streams, n, b" from_elem", len);
    bit(streams, v);
    let a = BitVec::from_elem(&mut bytes[..n], len, v);
    show(streams, a, 0, &bytes);
}

// Reads every place of a vector of len bits in n bytes, and the one past the last.
fn places(streams: &Streams, n: usize, len: usize)
    requires { n ≤ 3 }
{
    for i in 0..len {
        get(streams, n, len, i);
    }
    get(streams, n, len, len);
}

// Makes the other calls on a vector of len bits in n bytes, at its first bit, its last bit and the
// place past the last.
fn edges(streams: &Streams, n: usize, len: usize)
    requires { n ≤ 3 }
{
    push(streams, n, len, false);
    push(streams, n, len, true);
    pop(streams, n, len);
    if 0 < len {
        set(streams, n, len, len - 1, false);
        set(streams, n, len, len - 1, true);
        swap_remove(streams, n, len, 0);
        swap_remove(streams, n, len, len - 1);
    }
    set(streams, n, len, len, true);
    swap_remove(streams, n, len, len);
    from_elem(streams, n, len, false);
    from_elem(streams, n, len, true);
}

fn main(rt: HostRuntime) {
    let streams = Streams::new(&rt);
    places(&streams, 0, 0);
    places(&streams, 1, 1);
    places(&streams, 1, 7);
    places(&streams, 1, 8);
    places(&streams, 2, 9);
    places(&streams, 3, 24);
    edges(&streams, 0, 0);
    edges(&streams, 3, 0);
    edges(&streams, 1, 1);
    edges(&streams, 1, 7);
    edges(&streams, 1, 8);
    edges(&streams, 2, 9);
    edges(&streams, 2, 16);
    edges(&streams, 3, 24);
    // the length is above bytes × 8
    edges(&streams, 0, 1);
    edges(&streams, 1, 9);
    edges(&streams, 2, 17);
    edges(&streams, 3, 25);
    edges(&streams, 3, 18446744073709551615);
    get(&streams, 1, 9, 0);
    get(&streams, 3, 18446744073709551615, 0);
    // 10 ones fill two bytes, and the third byte is unchanged
    from_elem(&streams, 3, 10, true);
    output::close(&streams, b"test_bits");
}
