// The delay of a picture header.
ghost use Rattle.std.specs.Prelude.{◌≡◌};
ghost use Rattle.bits.specs.Refusals.{number};
ghost use Rattle.vbv.specs.Patch.{patch_picture, patched};

use vbv::patch_vbv_delay;

// Writes the delay into a picture header: 0, or 20 where none begins there.
#[unsafe(no_mangle)]
pub extern "C" fn vbv_patch_delay(picture: &mut [u8], vbv_delay: u16) -> u64
    ensures value { result ≡ number (patch_picture picture.old) }
    ensures picture_after { picture.new ≡ patched picture.old vbv_delay }
{
    match patch_vbv_delay(picture, vbv_delay) {
        Ok(()) => 0,
        Err(_) => 20,
    }
}
