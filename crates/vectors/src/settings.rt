// The numbers of a block: as they are drawn, and as a call with a fault has them.
use answers::runs::ModesRun;
use block::BlockSettings;
use call_answers::faults::{Fault, put};
use call_answers::numbers::{Draws, character_of, frames_of, lanes_of, rate_of};
use halfband::Designs;
use phase::Slot;
use shaper::Settings;

// A block's numbers, every other time one that goes on behind its first 32 host frames.
pub fn block_of(run: ModesRun, d: Draws, designs: Designs) -> BlockSettings {
    let seed = run.seed;
    let range = d.range;
    let frames = if range < 0x8000_0000 {
        33 + range / 0x100 % 8
    } else {
        frames_of(d.sizes, 40)
    };
    let slot0 = Slot {
        mode: run.mode0,
        character: character_of(seed, d.character0),
    };
    let slot1 = Slot {
        mode: run.mode1,
        character: character_of(seed, d.character1),
    };
    let shaper = Settings {
        slot0,
        slot1,
        factor: 1 << (d.sizes % 4),
        lanes: lanes_of(d.sizes),
        frames,
        numbers: lanes::rust_numbers(),
    };
    BlockSettings {
        shaper,
        rate: rate_of(d.rate),
        designs,
    }
}

// The block's numbers as a call with the fault has them.
pub fn faulted(block: BlockSettings, fault: Option<Fault>) -> BlockSettings {
    let mut b = block;
    let s = block.shaper;
    let [last, _, first] = block.designs.stages;
    b.shaper.slot0.mode = put(fault, Fault::Mode0, 70, s.slot0.mode);
    b.shaper.slot1.mode = put(fault, Fault::Mode1, 70, s.slot1.mode);
    b.shaper.factor = put(fault, Fault::Factor, 3, s.factor);
    b.shaper.frames = put(fault, Fault::NoFrames, 0, s.frames);
    b.rate = put(fault, Fault::Rate, 7999, b.rate);
    b.designs.stages[0].count = put(fault, Fault::ManyCoefs, 13, last.count);
    b.designs.stages[2].count = put(fault, Fault::NoCoefs, 0, first.count);
    b
}
