// Looking up an address in an image, for hosts in C and Rust: the calls of crate image_host as
// include/iset_image.h declares them. Over extern "C" the image is two scalars, its pointer and its
// length.
#![tactic(auto)]

ghost use Rattle.std.specs.Prelude.{◌≡◌};
ghost use Rattle.image_host.specs.Host.{host_count, host_number, host_value};

use image_host::{image_count, image_refusal, image_value};

// How many entries hold an address.
#[unsafe(no_mangle)]
pub extern "C" fn iset_image_count(image: &[u8], address: u64) -> u64
    ensures { result ≡ host_count image.now address }
{
    image_count(image, address)
}

// The value of the k-th of them in tree order, counted from 0.
#[unsafe(no_mangle)]
pub extern "C" fn iset_image_value(image: &[u8], address: u64, k: u64) -> u64
    ensures { result ≡ host_value image.now address k }
{
    image_value(image, address, k)
}

// The number of `iset_image_value`'s refusal, or 0 if there is none.
#[unsafe(no_mangle)]
pub extern "C" fn iset_image_refusal(image: &[u8], address: u64, k: u64) -> u64
    ensures { result ≡ host_number image.now address k }
{
    image_refusal(image, address, k)
}
