// One record of a patch file: a two-byte length of what follows it, a two-byte kind, a body. Numbers are
// written low byte first.
ghost use Rattle.std.specs.Prelude.{◌≡◌, ◌≤◌, cond, IfOk};

pub use crate::fields::{Entry, fields_at};
use crate::patches::PatchSlot;
use limits::{Refusal, mode_bad};

// A slot's record has this length, of what follows it, and so many bytes.
pub const LENGTH: u16 = 12;

pub const RECORD: usize = 14;

// What a record is about.
#[derive(Clone, Copy, Debug, PartialEq, Eq)]
pub enum Kind {
    Slot = 1,
}

impl TryFrom<u32> for Kind {
    ghost use Rattle.files.specs.Format.{IsKind};

    type Error = Refusal;

    ghost try_from_gives = { IsKind };

    #[tactic(auto, unfolding(crate::specs::Format::known_kind))]
    fn try_from(number: u32) -> Result<Kind, Refusal> {
        match number {
            1 => Ok(Kind::Slot),
            _ => Err(Refusal::Kind),
        }
    }
}

// Which of a patch's slots.
#[derive(Clone, Copy, Debug, PartialEq, Eq)]
pub enum Slot {
    Zero,
    One,
}

impl TryFrom<u32> for Slot {
    ghost use Rattle.files.specs.Format.{IsSlot};

    type Error = Refusal;

    ghost try_from_gives = { IsSlot };

    fn try_from(number: u32) -> Result<Slot, Refusal> {
        match number {
            0 => Ok(Slot::Zero),
            1 => Ok(Slot::One),
            _ => Err(Refusal::Field),
        }
    }
}

// What a slot is set to, and the serial by which a later record supersedes it.
#[derive(Clone, Copy)]
pub struct Record {
    pub slot: Slot,
    pub settings: PatchSlot,
    pub serial: u32,
    ghost in_range: { (settings.mode ≤ 69) × (settings.hundredths ≤ 10000) × (settings.tenthousandths ≤ 10000) },
}

impl Record {
    ghost use Rattle.limits.specs.Refusals.{number_of};
    ghost use Rattle.files.specs.Format.{bad_settings, entry_as, record_of, fields_at, number_at};

    // A field out of its range is refused.
    #[tactic(auto, unfolding(limits::specs::Refusals::number_of, limits::specs::Refusals::line_of))]
    pub fn new(slot: Slot, settings: PatchSlot, serial: u32) -> Result<Record, Refusal>
        ensures ok { IfOk result (λ r. (r.slot ≡ slot) × (r.settings ≡ settings) × (r.serial ≡ serial)) }
        ensures number { number_of result ≡ cond (bad_settings settings) 11 0 }
    {
        let PatchSlot {
            mode,
            hundredths,
            tenthousandths,
        } = settings;
        if mode_bad(mode) | (10000 < hundredths) | (10000 < tenthousandths) {
            return Err(Refusal::Field);
        }
        Ok(Record {
            slot,
            settings,
            serial,
        })
    }

    // The record that a file goes on with. No `TryFrom`: the rest of a file is more than a record.
    #[tactic(auto, using(crate::proofs::NumberLaws::lengths), unfolding(limits::specs::Refusals::number_of, limits::specs::Refusals::line_of, crate::specs::Format::two_at))]
    pub fn read(rest: &[u8]) -> Result<Record, Refusal>
        ensures number { number_of result ≡ number_at rest.now 0 }
        ensures fields { IfOk result (λ r. entry_as r ≡ fields_at rest.now 0) }
    {
        let [low, high, after @ ..] = rest else {
            return Err(Refusal::Length);
        };
        let length = u16::from_le_bytes([*low, *high]);
        let Some([low, high, ..]) = after.get(..usize::from(length)) else {
            return Err(Refusal::Length);
        };
        match Kind::try_from(u32::from(u16::from_le_bytes([*low, *high])))? {
            Kind::Slot if length == LENGTH => Record::try_from(fields_at(rest, 0)),
            Kind::Slot => Err(Refusal::Length),
        }
    }

    // Its bytes, by a method, as std's `to_le_bytes`.
    #[tactic(auto, unfolding(crate::specs::Format::record_of))]
    pub fn bytes(self) -> [u8; RECORD]
        ensures { result ≡ record_of (entry_as self) }
    {
        let [l0, l1] = LENGTH.to_le_bytes();
        let [k0, k1] = (Kind::Slot as u16).to_le_bytes();
        let slot = self.slot as u8;
        let mode = self.settings.mode as u8;
        let [h0, h1] = (self.settings.hundredths as u16).to_le_bytes();
        let [t0, t1] = (self.settings.tenthousandths as u16).to_le_bytes();
        let [s0, s1, s2, s3] = self.serial.to_le_bytes();
        [l0, l1, k0, k1, slot, mode, h0, h1, t0, t1, s0, s1, s2, s3]
    }
}

// An unknown kind is refused, then a field out of its range.
impl TryFrom<Entry> for Record {
    ghost use Rattle.files.specs.Format.{IsRecord};

    type Error = Refusal;

    ghost try_from_gives = { IsRecord };

    #[tactic(auto, unfolding(limits::specs::Lines::first_of, limits::specs::Refusals::number_of, limits::specs::Refusals::line_of, crate::specs::Format::known_kind))]
    fn try_from(entry: Entry) -> Result<Record, Refusal> {
        let settings = PatchSlot {
            mode: entry.mode,
            hundredths: entry.hundredths,
            tenthousandths: entry.tenthousandths,
        };
        match Kind::try_from(entry.kind)? {
            Kind::Slot => Record::new(Slot::try_from(entry.slot)?, settings, entry.serial),
        }
    }
}
