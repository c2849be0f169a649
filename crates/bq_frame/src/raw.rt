//! One byte behind a raw pointer, read or written with no test.

ghost use Rattle.std.specs.Prelude.{◌≡◌, ◌<◌, length, slice_index, slice_set};

/// The byte at a place.
#[inline(always)]
pub(crate) unsafe fn load(bytes: &[u8], at: usize) -> u8
    requires { at < length bytes.now }
    ensures { result ≡ slice_index bytes.now at }
{
    let start = bytes.as_ptr();
    unsafe { *start.add(at) }
}

/// Puts a byte at a place.
#[inline(always)]
pub(crate) unsafe fn store(bytes: &mut [u8], at: usize, value: u8)
    requires { at < length bytes.old }
    ensures { bytes.new ≡ slice_set bytes.old at value }
{
    let start = bytes.as_mut_ptr();
    unsafe {
        *start.add(at) = value;
    }
}
