// The colours of the nodes: one bit for each slot. A bit is 1 if its slot is red.
ghost use Rattle.std.specs.Prelude.{◌≡◌, true, false, not};
ghost use Rattle.bitvec.specs.Colours.{red, red_at, paint, paint_at};
ghost use Rattle.words.specs.Nodes.{HasBit, HoldsBits};

use words::ix::slot_at;

pub fn is_red(colours: &[u8], ix: u64) -> bool
    requires { HasBit colours.now ix }
    ensures { result ≡ red colours.now ix }
{
    crate::bit_at(colours, ix as usize)
}

pub fn is_black(colours: &[u8], ix: u64) -> bool
    requires { HasBit colours.now ix }
    ensures { result ≡ not (red colours.now ix) }
{
    !is_red(colours, ix)
}

// Whether a link leads to a black slot or to no slot.
pub fn is_black_or_nil(colours: &[u8], count: u64, word: u64) -> bool
    requires { HoldsBits colours.now count }
    ensures { result ≡ not (red_at count colours.now word) }
{
    let Some(ix) = slot_at(word, count) else {
        return true;
    };
    is_black(colours, ix)
}

pub fn set_red(colours: &mut [u8], ix: u64)
    requires { HasBit colours.old ix }
    ensures { colours.new ≡ paint colours.old ix true }
{
    crate::put_bit(colours, ix as usize, true);
}

pub fn set_black(colours: &mut [u8], ix: u64)
    requires { HasBit colours.old ix }
    ensures { colours.new ≡ paint colours.old ix false }
{
    crate::put_bit(colours, ix as usize, false);
}

// Gives slot `to` the colour of slot `from`.
pub fn copy_colour(colours: &mut [u8], from: u64, to: u64)
    requires { HasBit colours.old from × HasBit colours.old to }
    ensures { colours.new ≡ paint colours.old to (red colours.old from) }
{
    let v = is_red(colours, from);
    crate::put_bit(colours, to as usize, v);
}

// Makes the slot that a link leads to black, if it leads to one.
pub fn set_black_at(colours: &mut [u8], count: u64, word: u64)
    requires { HoldsBits colours.old count }
    ensures { colours.new ≡ paint_at count colours.old word false }
{
    let Some(ix) = slot_at(word, count) else {
        return;
    };
    set_black(colours, ix);
}
