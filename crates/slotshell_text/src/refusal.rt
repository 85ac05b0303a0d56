// A refusal in words, with its name and its number.
use lines::streams::Streams;
use slotshell_say::say;
use words::refusal::Refusal;

// The words. Each `%` in them stands for a number: the slot of NoSuch and Overlap, the two versions
// of Stale.
fn words_of(why: Refusal) -> &'static [u8] {
    match why {
        Refusal::NoRoom => b"refused: no room, the shell keeps 256 at most (NoRoom, 1)\n",
        Refusal::Broken => b"refused: the store does not pass the check (Broken, 2)\n",
        Refusal::NoSuch => b"refused: no entry in slot % (NoSuch, 3)\n",
        Refusal::BadRange =>
            b"refused: the range is empty, or ends before it begins (BadRange, 4)\n",
        Refusal::BadInterval => b"refused: the start is not below the end (BadInterval, 5)\n",
        Refusal::NotSorted =>
            b"refused: the list is not sorted by start, then by end (NotSorted, 6)\n",
        Refusal::BadCursor => b"refused: the cursor does not fit the map (BadCursor, 7)\n",
        Refusal::BadList =>
            b"refused: the list is not made of threes: start, end, value (BadList, 8)\n",
        Refusal::ShortOutput => b"refused: the output is too short (ShortOutput, 9)\n",
        Refusal::BadBit => b"refused: there is no such bit (BadBit, 10)\n",
        Refusal::Stale => b"refused: stale: taken at version %, the map is at % (Stale, 11)\n",
        Refusal::BadImage => b"refused: no image was saved (BadImage, 12)\n",
        Refusal::Overlap => b"refused: it overlaps the entry in slot % (Overlap, 13)\n",
        Refusal::NotDisjoint => b"refused: two ranges overlap (NotDisjoint, 14)\n",
        Refusal::BadPlan => b"refused: the plan does not name each slot once (BadPlan, 15)\n",
    }
}

// Says why a call was refused, with the numbers that belong to the words.
pub fn say_refused(streams: &Streams, why: Refusal, numbers: &[u64]) {
    say(streams, words_of(why), numbers);
}
