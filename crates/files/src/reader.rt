// Reading a patch file.
ghost use Rattle.std.specs.Prelude.{◌≡◌, ◌≤◌, length, IfOk, IfErr};
ghost use Rattle.limits.specs.Refusals.{line_of};
ghost use Rattle.files.specs.Format.{entry_as, fields_at, number_at};
ghost use Rattle.files.specs.Reader.{later_of, superseded, patch_of, reading_as, reading_of};

use crate::patches::{Patch, PatchSlot};
use crate::records::{RECORD, Record, Slot};
use limits::Refusal;

// The most bytes that a file has.
pub const LIMIT: usize = 65536;

// Why a file is turned away, and where the record that caused it starts.
#[derive(Clone, Copy, Debug, PartialEq, Eq)]
pub struct PatchError {
    pub refusal: Refusal,
    pub at: u32,
}

impl From<PatchError> for Refusal {
    ghost from_gives = { λ error refusal. refusal ≡ error.refusal };

    fn from(error: PatchError) -> Refusal {
        error.refusal
    }
}

// What a slot holds after some records. With none it is off and has serial 0, which every record supersedes.
#[derive(Clone, Copy, Default)]
pub struct Held {
    pub slot: PatchSlot,
    pub serial: u32,
}

impl Held {
    // The highest serial supersedes, and among equal ones the later record.
    #[tactic(auto, unfolding(crate::specs::Reader::later_of))]
    fn or_later(self, next: Record) -> Held
        ensures { result ≡ later_of self (entry_as next) }
    {
        if next.serial < self.serial {
            return self;
        }
        Held {
            slot: next.settings,
            serial: next.serial,
        }
    }
}

// Both slots, in two fields as in `Patch`.
#[derive(Clone, Copy, Default)]
pub struct Slots {
    pub held0: Held,
    pub held1: Held,
}

impl Slots {
    // With one record more.
    #[tactic(auto, unfolding(crate::specs::Reader::superseded))]
    fn with(self, next: Record) -> Slots
        ensures { result ≡ superseded self (entry_as next) }
    {
        match next.slot {
            Slot::Zero => Slots {
                held0: self.held0.or_later(next),
                ..self
            },
            Slot::One => Slots {
                held1: self.held1.or_later(next),
                ..self
            },
        }
    }

    fn patch(self) -> Patch
        ensures { result ≡ patch_of self }
    {
        Patch {
            slot0: self.held0.slot,
            slot1: self.held1.slot,
        }
    }
}

// The record that starts at `at`.
#[tactic(auto, using(crate::proofs::BodyLaws::number_from, crate::proofs::BodyLaws::fields_from), unfolding(limits::specs::Refusals::number_of))]
fn record_at(file: &[u8], at: usize) -> Result<Record, PatchError>
    requires { (at ≤ length file.now) × (length file.now ≤ 65536) }
    ensures ok { IfOk result (λ r. (number_at file.now at ≡ 0) × (entry_as r ≡ fields_at file.now at)) }
    ensures err { IfErr result (λ e. (number_at file.now at ≡ line_of e.refusal) × (e.at ≡ at)) }
{
    Record::read(&file[at..]).map_err(|refusal| PatchError {
        refusal,
        at: at as u32,
    })
}

// Reads a file's records in their order.
#[tactic(auto, using(crate::proofs::ReaderLaws::onward_more, crate::proofs::ReaderLaws::over_limit), unfolding(crate::specs::Reader::reading_as, limits::specs::Refusals::line_of))]
pub fn read_patch(file: &[u8]) -> Result<Patch, PatchError>
    ensures { reading_as result ≡ reading_of file.now }
{
    if LIMIT < file.len() {
        return Err(PatchError {
            refusal: Refusal::Length,
            at: 0,
        });
    }
    let mut slots = Slots::default();
    // By places and not by chunks: a refused record's place is answered, and its length may pass a chunk's end.
    for at in (0..file.len()).step_by(RECORD) {
        slots = slots.with(record_at(file, at)?);
    }
    Ok(slots.patch())
}
