// Whether an image is accepted, by the tests of a reader with room for 65,535 entries.
ghost use Rattle.std.specs.Prelude.{◌≡◌, true, ◌≤◌};
ghost use Rattle.image_rule.specs.Layout.{laid_out_lem, count_in_lem};
ghost use Rattle.image_text.specs.Judging.{image_checked, store_checked, image_number};

use image::judge::judge;
use image::layout::{count_in, has_layout};
use words::refusal::Refusal;

fn check_store(image: &[u8]) -> Result<(), Refusal>
    requires { (laid_out_lem image.now ≡ true) × (count_in_lem image.now ≤ 65535) }
    ensures { result ≡ store_checked image.now }
{
    if judge(image) {
        Ok(())
    } else {
        Err(Refusal::Broken)
    }
}

// Accepts an image, or refuses it: BadImage, NoRoom or Broken.
pub fn check(image: &[u8]) -> Result<(), Refusal>
    ensures { result ≡ image_checked image.now }
{
    if has_layout(image) {
        if 65535 < count_in(image) {
            Err(Refusal::NoRoom)
        } else {
            check_store(image)
        }
    } else {
        Err(Refusal::BadImage)
    }
}

// Returns the number of the refusal of an image, 12, 1 or 2, and 0 if it is accepted.
#[tactic(auto, unfolding(crate::specs::Judging::image_number, crate::specs::Judging::image_checked))]
pub fn number_of(image: &[u8]) -> u64
    ensures { result ≡ image_number image.now }
{
    match check(image) {
        Ok(()) => 0,
        Err(why) => why.number(),
    }
}
