// Writing a patch file.
ghost use Rattle.files.specs.Writer.{Wrote, written_as};

pub use crate::answers::Written;
use crate::patches::Patch;
use crate::records::{RECORD, Record, Slot};
use limits::Refusal;

// The bytes of a patch's file: two records.
pub const PATCH: usize = 28;

// The serial of a written record.
const SERIAL: u32 = 1;

// Writes both slots, slot 0 first, and answers how many bytes that were.
pub fn write_patch(patch: Patch, file: &mut [u8]) -> Result<u32, Refusal>
    ensures { Wrote patch file.old file.new (written_as result) }
{
    let first = Record::new(Slot::Zero, patch.slot0, SERIAL)?;
    let second = Record::new(Slot::One, patch.slot1, SERIAL)?;
    if file.len() < PATCH {
        return Err(Refusal::ShortWrite);
    }
    file[..RECORD].copy_from_slice(&first.bytes());
    file[RECORD..PATCH].copy_from_slice(&second.bytes());
    Ok(PATCH as u32)
}
