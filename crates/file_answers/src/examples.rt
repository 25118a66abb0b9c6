// Patch files whose readings are known by document 02's text alone: one for each of its rules, and both sides
// of a file's limit.
ghost use Rattle.std.specs.Prelude.{◌≤◌, length};

use crate::drawn::{Fields, RECORD};
use answers::answer::pattern;
use files::{CardPatch, CardSlot, card_amount, card_character, read_patch};
use limits::Refusal;

// How many there are.
pub const EXAMPLES: u64 = 12;

fn is_slot(s: CardSlot, mode: u32, amount: u32, character: u32) -> bool {
    (s.mode, pattern(s.amount), pattern(s.character)) == (mode, amount, character)
}

// Turned away with no patch.
fn is_away(file: &[u8], refusal: Refusal, at: u32) -> bool {
    let p = CardPatch::from(read_patch(file));
    ((p.number, p.at) == (u32::from(refusal), at))
        & is_slot(p.slot0, 0, 0, 0)
        & is_slot(p.slot1, 0, 0, 0)
}

// Accepted, with this in slot 0, floats by their patterns, and nothing in slot 1.
fn is_held(file: &[u8], mode: u32, amount: u32, character: u32) -> bool {
    let p = CardPatch::from(read_patch(file));
    ((p.number, p.at) == (0, 0))
        & is_slot(p.slot0, mode, amount, character)
        & is_slot(p.slot1, 0, 0, 0)
}

// A record of `HardClip` at 50 percent with character 0.25.
const HARD_CLIP: [u8; 14] = *b"\x0c\x00\x01\x00\x00\x15\x88\x13\xc4\x09\x01\x00\x00\x00";

// A record with a kind and no body.
fn bare(kind: u8, refusal: Refusal) -> bool {
    is_away(&[2, 0, kind, 0], refusal, 0)
}

// Mode 70 in the second record.
fn bad_mode() -> bool {
    let records = [of_mode(69, 0, 1), of_mode(70, 0, 1)];
    is_away(records.as_flattened(), Refusal::Field, 14)
}

// A record of slot 0 with this mode and serial, and both numbers alike.
fn of_mode(mode: u8, number: u16, serial: u32) -> [u8; RECORD] {
    let fields = Fields {
        slot: 0,
        mode,
        hundredths: number,
        tenthousandths: number,
        serial,
    };
    fields.bytes()
}

// Serials 5, 5 and 3 of one slot: the second record counts.
fn superseded() -> bool {
    let records = [of_mode(7, 0, 5), of_mode(8, 1, 5), of_mode(9, 0, 3)];
    is_held(records.as_flattened(), 8, 0x3c23_d70a, 0x38d1_b717)
}

// A number as an amount and as a character.
fn floats(n: u32, amount: u32, character: u32) -> bool {
    (pattern(card_amount(n)), pattern(card_character(n))) == (amount, character)
}

// 4,680 right records with one of kind 7 behind them, up to the file's end; the limit is 65,536 bytes.
fn filled(file: &mut [u8], refusal: Refusal, at: u32) -> bool
    requires { (65524 ≤ length file.old) × (length file.old ≤ 65537) }
{
    let (records, last) = file.split_at_mut(65520);
    for record in records.chunks_exact_mut(RECORD) {
        record.copy_from_slice(&of_mode(0, 0, 0));
    }
    let length = last.len() as u16 - 2;
    last[..2].copy_from_slice(&length.to_le_bytes());
    last[2] = 7;
    is_away(file, refusal, at)
}

// How many of them are kept.
pub fn examples_kept() -> u64 {
    let mut file = [0; 65537];
    let at_limit = filled(&mut file[..65536], Refusal::Kind, 65520);
    let above_limit = filled(&mut file, Refusal::Length, 0);
    let kept = [
        is_held(&[], 0, 0, 0),
        is_away(&HARD_CLIP[..13], Refusal::Length, 0),
        is_held(&HARD_CLIP, 21, 0x4248_0000, 0x3e80_0000),
        bare(7, Refusal::Kind),
        bare(1, Refusal::Length),
        bad_mode(),
        superseded(),
        floats(1, 0x3c23_d70a, 0x38d1_b717),
        floats(3333, 0x4205_51ec, 0x3eaa_a64c),
        floats(10000, 0x42c8_0000, 0x3f80_0000),
        at_limit,
        above_limit,
    ];
    kept.iter().filter(|&&kept| kept).count() as u64
}
