// Patch files.
ghost use Rattle.std.specs.Prelude.{◌≡◌};
ghost use Rattle.files.specs.Reader.{reading_of};
ghost use Rattle.files.specs.Writer.{Wrote};
ghost use Rattle.files.specs.Card.{card_patch, same_of, patch_from};

use files::{CardPatch, Patch, PatchSlot, Same, Written, read_patch, same_patch, write_patch};

// `files::read_patch`, with the card's floats.
#[unsafe(no_mangle)]
pub extern "C" fn shaper_patch_read(file: &[u8]) -> CardPatch
    ensures { result ≡ card_patch (reading_of file.now) }
{
    CardPatch::from(read_patch(file))
}

// `files::write_patch`: of each slot its mode, its hundredths and its ten-thousandths.
#[unsafe(no_mangle)]
pub extern "C" fn shaper_patch_write(
    mode0: u32,
    hundredths0: u32,
    tenthousandths0: u32,
    mode1: u32,
    hundredths1: u32,
    tenthousandths1: u32,
    file: &mut [u8],
) -> Written
    ensures { Wrote (patch_from mode0 hundredths0 tenthousandths0 mode1 hundredths1 tenthousandths1) file.old file.new result }
{
    let patch = Patch {
        slot0: PatchSlot {
            mode: mode0,
            hundredths: hundredths0,
            tenthousandths: tenthousandths0,
        },
        slot1: PatchSlot {
            mode: mode1,
            hundredths: hundredths1,
            tenthousandths: tenthousandths1,
        },
    };
    Written::from(write_patch(patch, file))
}

// Whether two files hold the same patch.
#[unsafe(no_mangle)]
pub extern "C" fn shaper_patch_same(a: &[u8], b: &[u8]) -> Same
    ensures { result ≡ same_of (reading_of a.now) (reading_of b.now) }
{
    Same::from(same_patch(read_patch(a), read_patch(b)))
}
