// The link word of a six-word node: left in the lowest 16 bits, then right, then parent. In 16 bits
// 65535 is the undefined link. Only this file knows where a link stands in that word.
ghost use Rattle.std.specs.Prelude.{◌≡◌, true, ◌<◌};
ghost use Rattle.words.specs.Layouts.{widened, narrowed, field_in, field_put, kid_fits, up_fits_lem};
ghost use Rattle.words.specs.declared.node.Field.TheVariants.{Child, Parent};

// Returns the link word of a link in 16 bits.
pub(crate) fn widened(k: u64) -> u64
    requires { k < 4294967296 }
    ensures { (result ≡ widened k) × (up_fits_lem true result ≡ true) }
{
    if k < 65535 { k } else { k + 4294901760 }
}

// Returns a link word in 16 bits; in more, if it is a parent's with top bits.
fn narrowed(v: u64) -> u64
    requires { up_fits_lem true v ≡ true }
    ensures { (result ≡ narrowed v) × (result < 4294967296) }
{
    if v < 65535 { v } else { v - 4294901760 }
}

// Returns a child link word in 16 bits.
fn narrowed_child(v: u64) -> u64
    requires { kid_fits true v ≡ true }
    ensures { (result ≡ narrowed v) × (result < 65536) }
{
    narrowed(v)
}

pub(crate) fn child_in(w: u64, left_side: bool) -> u64
    ensures { (result ≡ field_in (Child left_side) w) × (kid_fits true result ≡ true) }
{
    if left_side {
        widened(w % 65536)
    } else {
        widened(w / 65536 % 65536)
    }
}

pub(crate) fn with_child(w: u64, left_side: bool, v: u64) -> u64
    requires { kid_fits true v ≡ true }
    ensures { result ≡ field_put (Child left_side) w v }
{
    let k = narrowed_child(v);
    if left_side {
        w / 65536 * 65536 + k
    } else {
        w / 4294967296 * 4294967296 + k * 65536 + w % 65536
    }
}

pub(crate) fn with_parent(w: u64, v: u64) -> u64
    requires { up_fits_lem true v ≡ true }
    ensures { result ≡ field_put Parent w v }
{
    narrowed(v) * 4294967296 + w % 4294967296
}
