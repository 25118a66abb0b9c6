// Lines from bytes. A program gives each byte of its input to `Line::push`; where a line has ended, or is left over at
// the input's end, it has the line's bytes.
ghost use Rattle.std.specs.Prelude.{◌≡◌, ◌≤◌, length};
ghost use Rattle.std.specs.Option.{option_map, option_to_list};
ghost use Rattle.text.specs.Lines.{unread, begun, with_byte, ended_line, unless_empty};
ghost use Rattle.text.specs.Buffers.{held_of, reading_of, begun_length, left_over as Buffers·left_over};

// The bytes that are kept of a line.
const KEPT: usize = 255;

// A line as it is read: the bytes that are kept of it, the first so many, and whether its end has come. A length above
// 255 counts as 255. A length beside an array and no `ArrayVec`, which is never `Copy`; a flag and no `Option`: the bytes
// are there before the end as well as after it.
#[derive(Clone, Copy)]
pub struct Line {
    pub bytes: [u8; KEPT],
    pub length: usize,
    pub ended: bool,
}

impl Line {
    // What a program starts with.
    pub fn new() -> Line
        ensures value { reading_of result ≡ unread }
        ensures length_bound { result.length ≤ 255 }
    {
        Line {
            bytes: [0; KEPT],
            length: 0,
            ended: false,
        }
    }

    // How many bytes stand before the next one: none, where a line has just ended.
    #[tactic(auto, unfolding(crate::specs::Buffers::begun_length))]
    fn begun(self) -> usize
        ensures value { result ≡ begun_length (held_of self) }
        ensures upper_bound { result ≤ 255 }
    {
        if self.ended {
            return 0;
        }
        self.length.min(KEPT)
    }

    // One byte more. After a line that has ended the next begins; of a longer line than 255 bytes the rest is dropped.
    pub fn push(&mut self, byte: u8)
        ensures after { reading_of self.new ≡ with_byte (reading_of self.old) byte }
        ensures kept_bound { length (reading_of self.new).bytes ≤ 255 }
        ensures length_bound { self.new.length ≤ 255 }
    {
        self.length = self.begun();
        self.ended = byte == b'\n';
        if self.ended {
            return;
        }
        if self.length < KEPT {
            self.bytes[self.length] = byte;
            self.length += 1;
        }
    }

    // Its bytes, whether or not its end has come.
    #[tactic(auto, using(crate::proofs::BufferLaws::kept_taken))]
    pub fn bytes(&self) -> &[u8]
        ensures { result.now ≡ (reading_of self.now).bytes }
    {
        &self.bytes[..self.length.min(KEPT)]
    }

    // The line, where its end has come.
    #[tactic(auto, unfolding(crate::specs::Lines::ended_line))]
    pub fn ended(&self) -> Option<&[u8]>
        ensures { option_map (λ line. line.now) result ≡ ended_line (reading_of self.now) }
    {
        self.ended.then_some(self.bytes())
    }

    // Whether at the input's end there is a line that had no end: not, if it is empty.
    fn is_left_over(self) -> bool
        ensures { result ≡ Buffers·left_over (held_of self) }
    {
        !self.ended && self.length > 0
    }

    // That line, if there is one.
    #[tactic(auto, using(crate::proofs::BufferLaws::left_over_lem))]
    pub fn left_over(&self) -> Option<&[u8]>
        ensures { option_to_list (option_map (λ line. line.now) result) ≡ unless_empty (begun (reading_of self.now)) }
    {
        self.is_left_over().then_some(self.bytes())
    }
}
