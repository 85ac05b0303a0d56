// The lists among the numbers of a line. A LIST is its length, then that many numbers.

// The LIST at the front of the numbers, and the numbers after it.
pub(crate) fn split_list(numbers: &[u64]) -> Option<(&[u64], &[u64])> {
    let (n, rest) = numbers.split_first()?;
    let n = usize::try_from(*n).ok()?;
    if n <= rest.len() {
        Some(rest.split_at(n))
    } else {
        None
    }
}

// The LIST that the numbers are, if it has at most so many.
pub(crate) fn whole_list(numbers: &[u64], most: usize) -> Option<&[u64]> {
    match split_list(numbers)? {
        (list, []) if list.len() <= most => Some(list),
        _ => None,
    }
}

// The same if each of them is a byte.
pub(crate) fn whole_bytes(numbers: &[u64], most: usize) -> Option<&[u64]> {
    whole_list(numbers, most).filter(|list| list.iter().all(|x| *x < 256))
}

// The version that a number is: it has 32 bits.
pub(crate) fn version(x: u64) -> Option<u32> {
    u32::try_from(x).ok()
}
