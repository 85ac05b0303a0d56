// Looking up an address in the bytes of an image: how many entries hold it, and the value of one of
// them. Nothing is copied, and nothing is written. Each call takes any bytes and any numbers. It
// tests the whole image first, as a reader of the image does (docs/IMAGE.md), and then visits every
// entry in tree order.
#![tactic(auto, using(words::proofs::Refusals::number_pos), unfolding(crate::specs::Host::host_image, crate::specs::Host::host_count, crate::specs::Host::host_number, crate::specs::Host::host_value))]

mod seek;

ghost use Rattle.std.specs.Prelude.{◌≡◌, true, ◌≤◌};
ghost use Rattle.std.specs.Result.{result_unwrap_or};
ghost use Rattle.iset.specs.Check.{check_number};
ghost use Rattle.image_rule.specs.Layout.{count_in_lem, laid_out_lem};
ghost use Rattle.image_host.specs.Host.{host_image, seen_in_lem, host_count, host_number, host_value};

use crate::seek::seek;
use image::judge::judge;
use image::layout::{count_in, has_layout, root_in};
use image_rule::Seen;
use words::refusal::Refusal;

// The first refusal of an image: BadImage, NoRoom if no map has as many entries, Broken.
fn test_image(image: &[u8]) -> Result<(), Refusal>
    ensures { check_number result ≡ host_image image.now }
{
    if !has_layout(image) {
        return Err(Refusal::BadImage);
    }
    if 65535 < count_in(image) {
        return Err(Refusal::NoRoom);
    }
    if judge(image) {
        Ok(())
    } else {
        Err(Refusal::Broken)
    }
}

// What a search from the root finds.
#[tactic(auto, using(image::proofs::Layouts::bodies), unfolding(crate::specs::Host::seen_in_lem))]
fn seen_in(image: &[u8], address: u64, k: u64) -> Seen
    requires { (laid_out_lem image.now ≡ true) × (count_in_lem image.now ≤ 65535) }
    ensures { result ≡ seen_in_lem image.now address k }
{
    let none = Seen { hits: 0, value: 0 };
    seek(image, count_in(image), root_in(image), address, k, none, 33)
}

// The value of the k-th entry in tree order that holds an address, counted from 0. The first
// refusal: that of the image, then NoSuch if there is no k-th entry.
fn find_hit(image: &[u8], address: u64, k: u64) -> Result<u64, Refusal>
    ensures { (check_number result ≡ host_number image.now address k) × (result_unwrap_or result 0 ≡ host_value image.now address k) }
{
    test_image(image)?;
    let seen = seen_in(image, address, k);
    if seen.hits <= k {
        return Err(Refusal::NoSuch);
    }
    Ok(seen.value)
}

// Returns how many entries hold an address; 0 if the image is refused.
pub fn image_count(image: &[u8], address: u64) -> u64
    ensures { result ≡ host_count image.now address }
{
    if test_image(image).is_err() {
        return 0;
    }
    let seen = seen_in(image, address, 0);
    seen.hits
}

// Returns the value of the k-th of these entries in tree order, counted from 0; 0 if this is
// refused.
pub fn image_value(image: &[u8], address: u64, k: u64) -> u64
    ensures { result ≡ host_value image.now address k }
{
    find_hit(image, address, k).unwrap_or(0)
}

// Returns the number of `image_value`'s refusal: that of the image, or NoSuch if there is no k-th
// entry; 0 if nothing is refused.
pub fn image_refusal(image: &[u8], address: u64, k: u64) -> u64
    ensures { result ≡ host_number image.now address k }
{
    match find_hit(image, address, k) {
        Ok(_) => 0,
        Err(why) => why.number(),
    }
}
