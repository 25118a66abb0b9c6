// Patch files remade from draws: right records with up to two faults among them. What is `put` is written into a
// file's bytes; the one conversion is `Fields::bytes`.
ghost use Rattle.std.specs.Prelude.{◌+◌, ◌<◌, ◌≤◌, length};

use answers::random::Random;

// The bytes of a record of kind 1.
pub const RECORD: usize = 14;

// The draws that a turn is made of, beside those of its file's records.
#[derive(Clone, Copy)]
pub struct Draws {
    pub how: u32,
    pub place: u32,
    pub value: u32,
    pub other: u32,
}

impl Draws {
    pub fn new(random: &mut Random) -> Draws {
        let [how, place, value, other] = random.draws::<4>();
        Draws {
            how,
            place,
            value,
            other,
        }
    }

    // How many right records the file begins with.
    pub fn records(self) -> usize
        ensures { result ≤ 8 }
    {
        (self.how % 9) as usize
    }

    // The file's bytes: those of its records, or a few less or more.
    pub fn bytes(self) -> usize
        ensures { result ≤ 127 }
    {
        let end = RECORD * self.records();
        let by = (self.place / 0x100 % 16) as usize;
        match self.how / 0x10_0000 % 16 {
            0 => end.saturating_sub(by),
            1 => end + by,
            _ => end,
        }
    }

    // Both faults of a turn.
    pub fn put_faults(self, file: &mut [u8; 128]) {
        if let Some(fault) = Fault::of(self.how / 0x1000_0000) {
            fault.put(self.value, self.start_of(self.place), file);
        }
        if let Some(fault) = Fault::of(self.how / 0x100_0000 % 16) {
            fault.put(
                self.value / 0x100,
                self.start_of(self.place / 0x1_0000),
                file,
            );
        }
    }

    // Where a fault's record starts: one of the file's; with none of them, at the start.
    fn start_of(self, place: u32) -> usize
        ensures { result ≤ 98 }
    {
        match self.records() {
            0 => 0,
            records => RECORD * (place as usize % records),
        }
    }
}

// A record of kind 1.
#[derive(Clone, Copy, Default)]
pub struct Fields {
    pub slot: u8,
    pub mode: u8,
    pub hundredths: u16,
    pub tenthousandths: u16,
    pub serial: u32,
}

impl Fields {
    // Its bytes, not by way of the crate that they try.
    pub fn bytes(self) -> [u8; RECORD] {
        let [h0, h1] = self.hundredths.to_le_bytes();
        let [t0, t1] = self.tenthousandths.to_le_bytes();
        let [s0, s1, s2, s3] = self.serial.to_le_bytes();
        [
            12, 0, 1, 0, self.slot, self.mode, h0, h1, t0, t1, s0, s1, s2, s3,
        ]
    }
}

// An amount or a character: often 0 or the highest.
fn number_of(n: u32) -> u16
    requires { n < 65536 }
{
    match n / 0x2000 {
        0 => 0,
        1 => 10000,
        _ => (n % 10001) as u16,
    }
}

// A serial: one of five, or any.
fn serial_of(draw: u32) -> u32 {
    match draw / 0x2000_0000 {
        0 => 0,
        1..=2 => 1,
        3..=4 => 5,
        5 => 0x100_0000,
        6 => 0xffff_ffff,
        _ => draw,
    }
}

// Right records, three draws each.
pub fn put_records(random: &mut Random, records: usize, file: &mut [u8; 128]) {
    for record in file.chunks_exact_mut(RECORD).take(records) {
        let [place, numbers, last] = random.draws::<3>();
        let fields = Fields {
            slot: (place % 2) as u8,
            mode: (place / 256 % 70) as u8,
            hundredths: number_of(numbers % 0x1_0000),
            tenthousandths: number_of(numbers / 0x1_0000),
            serial: serial_of(last),
        };
        record.copy_from_slice(&fields.bytes());
    }
}

// What a fault makes wrong.
#[derive(Clone, Copy)]
enum Fault {
    Length,
    Kind,
    Slot,
    Mode,
    Amount,
    Character,
}

// In the order of the draws that make them.
const FAULTS: [Fault; 6] = [
    Fault::Length,
    Fault::Kind,
    Fault::Slot,
    Fault::Mode,
    Fault::Amount,
    Fault::Character,
];

impl Fault {
    // From 6 on there is no fault.
    fn of(draw: u32) -> Option<Fault> {
        FAULTS.get(draw as usize).copied()
    }

    // Where its two bytes stand in the record.
    fn offset(self) -> usize
        ensures { result ≤ 8 }
    {
        match self {
            Fault::Length => 0,
            Fault::Kind => 2,
            Fault::Slot | Fault::Mode => 4,
            Fault::Amount => 6,
            Fault::Character => 8,
        }
    }

    // What they say.
    fn word(self, value: u32) -> u16 {
        match self {
            Fault::Length => length_of(value),
            Fault::Kind => kind_of(value),
            Fault::Slot => 2,
            Fault::Mode => 70 * 256 + 1,
            Fault::Amount | Fault::Character => 10001,
        }
    }

    // In the record that starts at `at`.
    fn put(self, value: u32, at: usize, file: &mut [u8])
        requires { at + 10 ≤ length file.old }
    {
        let at = at + self.offset();
        file[at..at + 2].copy_from_slice(&self.word(value).to_le_bytes());
    }
}

fn length_of(value: u32) -> u16 {
    match value % 8 {
        0 => 0,
        1 => 1,
        2 => 2,
        3 => 11,
        4 => 13,
        5 => 14,
        6 => 268,
        _ => 65535,
    }
}

fn kind_of(value: u32) -> u16 {
    match value % 4 {
        0 => 0,
        1 => 2,
        2 => 257,
        _ => 65535,
    }
}
