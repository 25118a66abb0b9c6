// The rendered frames of one host frame of one lane.
ghost use Rattle.std.specs.Prelude.{◌≡◌, ◌*◌, length, get_or};
ghost use Rattle.std.specs.Float.{nan};
ghost use Rattle.grid.specs.Cells.{column};
ghost use Rattle.limits.specs.Lengths.{spans_of};
ghost use Rattle.controls.specs.Controls.{lent_of};
ghost use Rattle.render.specs.Lane.{inputs_in};
ghost use Rattle.render.specs.Promises.{Readable};
ghost use Rattle.render.specs.Slices.{accepted_lists};
ghost use Rattle.render.specs.Frames.{host_at, Stills, Hosted, Room, Ran};

use crate::drives::drive_at;
use crate::frame::frame_at;
use crate::lent::{AcceptedSlices, Rows};
use crate::state::{Drive, HostFrame, Voice};
use controls::LaneFrame;
use grid::{Lane, place};
use limits::SUB_BLOCK;
use shaper::Settings;

// What holds for all rendered frames of host frame `host`.
fn load_host(
    s: Settings,
    lane: usize,
    host: usize,
    still0: Drive,
    still1: Drive,
    rows: Rows<'_>,
) -> HostFrame
    requires stills { Stills s lane rows.controls.base0.now rows.controls.base1.now still0 still1 }
    requires hosted { Hosted s lane host
        (length rows.controls.base0.now) (length rows.controls.base1.now)
        (length rows.controls.mod0.now) (length rows.controls.mod1.now) (length rows.inner.now) }
    ensures { result ≡ host_at s (get_or rows.entry.controls.base0.now lane nan) (get_or rows.entry.controls.base1.now lane nan)
        (lent_of s.lanes lane s.frames rows.entry.controls.mod0.now) (lent_of s.lanes lane s.frames rows.entry.controls.mod1.now)
        (column nan s.lanes lane (spans_of s.frames) rows.entry.inner.now) host }
{
    let at = LaneFrame {
        lane: Lane {
            lanes: s.lanes as usize,
            index: lane,
        },
        frames: s.frames as usize,
        host,
    };
    let controls = rows.controls;
    HostFrame {
        drive0: drive_at(
            s.slot0.mode,
            controls.base0[lane],
            still0,
            controls.mod0,
            at,
        ),
        drive1: drive_at(
            s.slot1.mode,
            controls.base1[lane],
            still1,
            controls.mod1,
            at,
        ),
        inner: rows.inner[at.lane.place(host / SUB_BLOCK)],
    }
}

// The rendered frames of host frame `host`, into the work rows from `row` on; the lane's state after
// them.
pub fn render_host(
    s: Settings,
    scale: f32,
    lane: usize,
    host: usize,
    row: usize,
    still0: Drive,
    still1: Drive,
    v: Voice,
    lent: AcceptedSlices<'_>,
    work: &mut [f32],
) -> Voice
    requires room { Room s lane host row (length work.old) }
    requires stills { Stills s lane lent.rows.controls.base0.now lent.rows.controls.base1.now still0 still1 }
    requires readable { Readable s (accepted_lists lent) }
    ensures { Ran s scale
        (inputs_in s (accepted_lists lent.entry) lane)
        lane (host * s.factor) row s.factor v result work.old work.new }
{
    let n = s.lanes as usize;
    let h = load_host(s, lane, host, still0, still1, lent.rows);
    let mut state = v;
    // Over a range: a rendered frame goes by its number between two host frames.
    for sub in 0..s.factor {
        let out = frame_at(s, scale, lane, host, sub, h, state, lent);
        work[place(row + sub as usize, n, lane)] = out.sample;
        state = out.voice;
    }
    state
}
