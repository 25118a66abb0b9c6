// The fields of a record, before any of them is tested.
ghost use Rattle.std.specs.Prelude.{◌≡◌, ◌+◌, ◌≤◌, length};
ghost use Rattle.files.specs.Format.{fields_at};

// A record as a file has it: its kind and the fields of its body, whatever they are.
#[derive(Clone, Copy)]
pub struct Entry {
    pub kind: u32,
    pub slot: u32,
    pub mode: u32,
    pub hundredths: u32,
    pub tenthousandths: u32,
    pub serial: u32,
}

// Those of the record at `at`, which is whole.
#[tactic(auto, unfolding(crate::specs::Format::fields_at, crate::specs::Format::two_at, crate::specs::Format::four_at))]
pub fn fields_at(file: &[u8], at: usize) -> Entry
    requires { at + 14 ≤ length file.now }
    ensures { result ≡ fields_at file.now at }
{
    Entry {
        kind: u32::from(u16::from_le_bytes([file[at + 2], file[at + 3]])),
        slot: u32::from(file[at + 4]),
        mode: u32::from(file[at + 5]),
        hundredths: u32::from(u16::from_le_bytes([file[at + 6], file[at + 7]])),
        tenthousandths: u32::from(u16::from_le_bytes([file[at + 8], file[at + 9]])),
        serial: u32::from_le_bytes([file[at + 10], file[at + 11], file[at + 12], file[at + 13]]),
    }
}
