// Runs of patch files: each turn makes a file from the seed, reads it, writes the patch and compares both files, and a
// hash takes the answers, field by field: C's structs hold floats, which std hashes none of. The bytes stay as the
// turns before it have left them.
ghost use Rattle.std.specs.Prelude.{◌≤◌};

use crate::drawn::{Draws, put_records};
use answers::hash::Hash;
use answers::random::Random;
use answers::runs::{ModesRun, hash_of};
use files::{CardPatch, CardSlot, Patch, Same, Written, read_patch, same_patch, write_patch};

fn put_slot(hash: &mut Hash, s: CardSlot) {
    hash.put(s.mode);
    hash.put(s.hundredths);
    hash.put(s.tenthousandths);
    hash.put_float(s.amount);
    hash.put_float(s.character);
}

fn put_patch(hash: &mut Hash, p: CardPatch) {
    hash.put(p.number);
    hash.put(p.at);
    put_slot(hash, p.slot0);
    put_slot(hash, p.slot1);
}

fn put_bytes(hash: &mut Hash, bytes: &[u8]) {
    for byte in bytes {
        hash.put(u32::from(*byte));
    }
}

fn put_written(hash: &mut Hash, w: Written, buffer: &[u8]) {
    hash.put(w.number);
    hash.put(w.bytes);
    put_bytes(hash, buffer);
}

fn put_same(hash: &mut Hash, s: Same) {
    hash.put(s.number);
    hash.put(s.same);
}

// A patch as a writer is given it: as it is, or with a field out of range. By a draw: its numbers stand here alone, so
// that an enum of them would be these arms a second time.
fn given(fault: u32, patch: Patch) -> Patch {
    let mut given = patch;
    match fault {
        0 => given.slot0.mode = 70,
        1 => given.slot0.hundredths = 10001,
        2 => given.slot0.tenthousandths = 10001,
        3 => given.slot1.mode = 70,
        4 => given.slot1.hundredths = 10001,
        5 => given.slot1.tenthousandths = 10001,
        _ => {}
    }
    given
}

// How many bytes of its buffer a writer is lent.
fn lent_of(d: Draws) -> usize
    ensures { result ≤ 40 }
{
    match d.value / 0x100_0000 % 8 {
        0 => (d.place / 0x100_0000 % 28) as usize,
        1 => 28,
        _ => 40,
    }
}

// One time of four a byte of what was written is replaced.
fn change(other: u32, buffer: &mut [u8; 40]) {
    if other < 0x4000_0000 {
        let at = (other % 28) as usize;
        buffer[at] = (other / 0x100 % 256) as u8;
    }
}

// The turn about a file, put to the hash.
fn turn(d: Draws, hash: &mut Hash, bytes: &[u8; 128], buffer: &mut [u8; 40]) {
    let reading = read_patch(&bytes[..d.bytes()]);
    put_patch(hash, CardPatch::from(reading));
    let patch = given(d.value / 0x1000_0000, reading.unwrap_or_default());
    let written = write_patch(patch, &mut buffer[..lent_of(d)]);
    put_written(hash, Written::from(written), buffer);
    change(d.other, buffer);
    let other = read_patch(&buffer[..28]);
    put_same(hash, Same::from(same_patch(reading, other)));
    put_same(hash, Same::from(same_patch(other, reading)));
}

pub fn file_hash(run: ModesRun) -> u64 {
    let mut bytes = [0u8; 128];
    let mut buffer = [0u8; 40];
    hash_of(run.count, Random::new(run.seed), |random, hash| {
        let d = Draws::new(random);
        put_records(random, d.records(), &mut bytes);
        d.put_faults(&mut bytes);
        turn(d, hash, &bytes, &mut buffer);
    })
}
