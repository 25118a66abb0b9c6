// Read lists: up to four weighted reads of the cycle.
ghost use Rattle.std.specs.Prelude.{◌≡◌};
ghost use Rattle.reads.specs.Reads.{start_of, empty_of, weighted_of, push_of, one_read, shift_of, outgoing_of};
ghost use Rattle.reads.specs.Branches.{appended};

use crate::branches::{BranchKind, Branches, Read};
use lanes::add_words;

// The most reads of a list.
pub const MAX_READS: usize = 4;

// The reads as a slot builds them. Words and gains lie apart as `LaneReads` has them, so that going out
// moves none, and a count is no ghost field's: then each definition that makes a list would have a proof
// among its fields.
#[derive(Clone, Copy)]
pub struct ReadList {
    pub word: [u32; 4],
    pub gain: [f32; 4],
    pub count: usize,
    // Whether the gains aren't all 1: words and count stand either way.
    pub weighted: bool,
}

// The reads as they go out, laid out for C: a count of 0 is one read at `phase[0]` with no gain.
#[repr(C)]
#[derive(Clone, Copy)]
pub struct LaneReads {
    pub phase: [u32; 4],
    pub gain: [f32; 4],
    pub count: usize,
}

impl LaneReads {
    // One read at `phase`, unweighted.
    #[tactic(auto, unfolding(crate::specs::Reads::one_read))]
    pub fn one(phase: u32) -> LaneReads
        ensures { result ≡ one_read phase }
    {
        LaneReads {
            phase: [phase; 4],
            gain: [1.0; 4],
            count: 0,
        }
    }
}

// An unweighted list goes out with count 0.
impl From<ReadList> for LaneReads {
    ghost from_gives = { λ list reads. reads ≡ outgoing_of list };

    #[tactic(auto, unfolding(crate::specs::Reads::outgoing_of))]
    fn from(list: ReadList) -> LaneReads {
        let phase = list.word;
        let gain = list.gain;
        let count = if list.weighted { list.count } else { 0 };
        LaneReads { phase, gain, count }
    }
}

impl ReadList {
    // One read at `word`, unweighted.
    #[tactic(auto, unfolding(crate::specs::Reads::start_of))]
    pub fn start(word: u32) -> ReadList
        ensures { result ≡ start_of word }
    {
        ReadList {
            word: [word; 4],
            gain: [1.0; 4],
            count: 1,
            weighted: false,
        }
    }

    #[tactic(auto, unfolding(crate::specs::Reads::start_of, crate::specs::Reads::empty_of))]
    pub fn empty(like: u32) -> ReadList
        ensures { result ≡ empty_of like }
    {
        ReadList {
            count: 0,
            ..ReadList::start(like)
        }
    }

    // The same reads, whose gains count.
    #[tactic(auto, unfolding(crate::specs::Reads::weighted_of))]
    pub fn weighted(self) -> ReadList
        ensures { result ≡ weighted_of self }
    {
        ReadList {
            weighted: true,
            ..self
        }
    }

    // One read more, where there is room. By cases, so that the list can stay in registers.
    #[tactic(auto, unfolding(crate::specs::Reads::push_of))]
    pub fn push(self, read: Read) -> ReadList
        ensures { result ≡ push_of self read.word read.gain }
    {
        let Read { word, gain } = read;
        let mut out = self;
        match self.count {
            0 => {
                out.word[0] = word;
                out.gain[0] = gain;
                out.count = 1;
            }
            1 => {
                out.word[1] = word;
                out.gain[1] = gain;
                out.count = 2;
            }
            2 => {
                out.word[2] = word;
                out.gain[2] = gain;
                out.count = 3;
            }
            3 => {
                out.word[3] = word;
                out.gain[3] = gain;
                out.count = 4;
            }
            _ => {}
        }
        out
    }

    // The list with the reads of `b` after its own.
    #[tactic(auto, unfolding(crate::specs::Branches::appended, crate::specs::Branches::appended_as))]
    pub fn append(self, b: Branches) -> ReadList
        ensures { result ≡ appended b self }
    {
        match b.kind {
            BranchKind::One => self.push(b.first),
            BranchKind::Weighted => self.weighted().push(b.first),
            BranchKind::Both => self.weighted().push(b.first).push(b.second),
        }
    }

    // Every read moved on by `offset` words: where an inter-oscillator mode adds its own phase. A list of
    // none has one word in use. By cases, as `push`.
    pub fn shift(self, offset: u32) -> ReadList
        ensures { result ≡ shift_of self offset }
    {
        let n = self.count;
        let mut out = self;
        out.word[0] = add_words(out.word[0], offset);
        if n < 2 {
            return out;
        }
        out.word[1] = add_words(out.word[1], offset);
        if n < 3 {
            return out;
        }
        out.word[2] = add_words(out.word[2], offset);
        if n < 4 {
            return out;
        }
        out.word[3] = add_words(out.word[3], offset);
        out
    }
}
