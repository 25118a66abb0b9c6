// Lines 1 to 6 of the table: tests of a call's numbers.
ghost use Rattle.std.specs.Prelude.{◌≡◌, ◌*◌};
ghost use Rattle.limits.specs.Refusals.{number_of, numbered};
ghost use Rattle.limits.specs.Lines.{first_of, bad_mode, bad_modes, bad_factor, bad_lanes, bad_lane, bad_frames, bad_range, bad_frame, bad_asked, bad_points, bad_rate, bad_count, bad_counts};

use crate::refusal::Refusal;

// Line 1, for a call with one mode.
pub fn mode_bad(mode: u32) -> bool
    ensures { result ≡ bad_mode mode }
{
    69 < mode
}

// Line 1.
pub fn modes_bad(mode0: u32, mode1: u32) -> bool
    ensures { result ≡ bad_modes mode0 mode1 }
{
    mode_bad(mode0) | mode_bad(mode1)
}

// Line 2.
pub fn factor_bad(factor: u32) -> bool
    ensures { result ≡ bad_factor factor }
{
    !((factor == 1) | (factor == 2) | (factor == 4) | (factor == 8))
}

// Line 3.
pub fn lanes_bad(lanes: u32, active: u32) -> bool
    ensures { result ≡ bad_lanes lanes active }
{
    (lanes < 1) | (64 < lanes) | (lanes < active)
}

// Line 3, for a call about a single lane.
pub fn lane_bad(lanes: u32, active: u32, lane: u32) -> bool
    ensures { result ≡ bad_lane lanes active lane }
{
    lanes_bad(lanes, active) | !(lane < active)
}

// Line 4.
pub fn frames_bad(frames: u32) -> bool
    ensures { result ≡ bad_frames frames }
{
    4096 < frames
}

// Line 4, for a call with a range. The sum is in u64, where it cannot wrap.
pub fn range_bad(frames: u32, first: u32, count: u32) -> bool
    ensures { result ≡ bad_range frames first count }
{
    frames_bad(frames) | ((frames as u64) < first as u64 + count as u64)
}

// The rendered frames of a range. In u64 the product cannot wrap.
fn rendered(factor: u32, count: u32) -> u64
    ensures { result ≡ count * factor }
{
    count as u64 * factor as u64
}

// Line 4, for a call about a single rendered frame of a range. The numbers are a call's own, tested before anything is
// made of them.
pub fn frame_bad(factor: u32, frames: u32, first: u32, count: u32, frame: u32) -> bool
    ensures { result ≡ bad_frame factor frames first count frame }
{
    range_bad(frames, first, count) | !((frame as u64) < rendered(factor, count))
}

// Line 4, for `PhaseRun::stretch`: of a call's own numbers too.
pub fn asked_bad(factor: u32, frames: u32, first: u32, count: u32, from: u32, asked: u32) -> bool
    ensures { result ≡ bad_asked factor frames first count from asked }
{
    frame_bad(factor, frames, first, count, from)
        | (rendered(factor, count) < from as u64 + asked as u64)
}

// Line 4, for a picture, whose points are as many as its buffer has numbers.
pub fn points_bad(points: usize) -> bool
    ensures { result ≡ bad_points points }
{
    4096 < points
}

// Line 5.
pub fn rate_bad(rate: u32) -> bool
    ensures { result ≡ bad_rate rate }
{
    (rate < 8000) | (192000 < rate)
}

fn count_bad(count: u32) -> bool
    ensures { result ≡ bad_count count }
{
    (count < 1) | (12 < count)
}

// Line 6.
pub fn counts_bad(count0: u32, count1: u32, count2: u32) -> bool
    ensures { result ≡ bad_counts count0 count1 count2 }
{
    count_bad(count0) | count_bad(count1) | count_bad(count2)
}

// The first of these lines that holds, if any does.
pub fn check_lines(lines: &[(bool, Refusal)]) -> Result<(), Refusal>
    ensures { number_of result ≡ first_of (numbered lines.now) }
{
    for (holds, refusal) in lines {
        if *holds {
            return Err(*refusal);
        }
    }
    Ok(())
}
