// What some calls have wrong, so that they are turned down.
ghost use Rattle.std.specs.Prelude.{◌≡◌, ◌≢◌, ◌/◌, ◌<◌, ◌≤◌, ◌↔◌, Some, IsSome, length, take};

#[derive(Clone, Copy, PartialEq, Eq)]
pub enum Fault {
    // A mode above 69.
    Mode0,
    Mode1,
    // No factor that there is.
    Factor,
    // More lanes active than there are, or none.
    ManyActive,
    NoneActive,
    // A lane that is not active.
    Lane,
    NoFrames,
    // More host frames than the block has left.
    Count,
    // A rendered frame behind the range, and none asked for.
    Frame,
    // More rendered frames asked for than the range has left.
    Asked,
    Rate,
    // A coefficient too many, or none.
    ManyCoefs,
    NoCoefs,
    // A cell short: the first or the last buffer of a call about a lane or spans, or one of a block's.
    FirstBuffer,
    LastBuffer,
    Words,
    Base0,
    State,
    Output,
    Cycle,
}

// In the order of the draws that make them.
const OF_CALLS: [Fault; 13] = [
    Fault::Mode0,
    Fault::Mode1,
    Fault::Factor,
    Fault::ManyActive,
    Fault::Lane,
    Fault::NoneActive,
    Fault::NoFrames,
    Fault::Count,
    Fault::Frame,
    Fault::Rate,
    Fault::Asked,
    Fault::FirstBuffer,
    Fault::LastBuffer,
];

const OF_BLOCKS: [Fault; 15] = [
    Fault::Mode0,
    Fault::Mode1,
    Fault::Factor,
    Fault::ManyActive,
    Fault::ManyCoefs,
    Fault::NoneActive,
    Fault::NoFrames,
    Fault::Count,
    Fault::NoCoefs,
    Fault::Rate,
    Fault::Words,
    Fault::Base0,
    Fault::State,
    Fault::Output,
    Fault::Cycle,
];

// The fault of a call about a lane or about spans: of 64 draws 13 make one. It and the next are one expression of std,
// each on its own table.
pub fn fault_of_call(how: u32) -> Option<Fault>
    ensures { IsSome result ↔ (how / 0x400_0000 < 13) }
{
    OF_CALLS.get((how / 0x400_0000) as usize).copied()
}

// The fault of a block run: of 64 draws 15 make one.
pub fn fault_of_block(how: u32) -> Option<Fault>
    ensures { IsSome result ↔ (how / 0x400_0000 < 15) }
{
    OF_BLOCKS.get((how / 0x400_0000) as usize).copied()
}

// `new` where the call has the fault, else `old`.
pub fn put<T: Copy>(fault: Option<Fault>, at: Fault, new: T, old: T) -> T
    ensures faulty { fault ≡ Some at → result ≡ new }
    ensures sound { fault ≢ Some at → result ≡ old }
{
    if fault == Some(at) { new } else { old }
}

// The whole buffer, or with the fault its first `short` cells, one less than the call asks for.
pub fn cut<T>(fault: Option<Fault>, at: Fault, cells: &[T], short: usize) -> &[T]
    ensures faulty { fault ≡ Some at → short ≤ length cells.now → result.now ≡ take short cells.now }
    ensures sound { fault ≢ Some at → result.now ≡ cells.now }
{
    if fault == Some(at) {
        cells.get(..short).unwrap_or(cells)
    } else {
        cells
    }
}

// The same of a buffer that the call changes: no function is generic over `&` and `&mut`.
pub fn cut_mut<T>(fault: Option<Fault>, at: Fault, cells: &mut [T], short: usize) -> &mut [T]
    ensures faulty { fault ≡ Some at → short ≤ length cells.old → result.now ≡ take short cells.old }
    ensures sound { fault ≢ Some at → result.now ≡ cells.old }
{
    if fault == Some(at) && short <= cells.len() {
        &mut cells[..short]
    } else {
        cells
    }
}
