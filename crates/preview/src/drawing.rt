// A picture's reads, and the whole of it.
ghost use Rattle.std.specs.Prelude.{◌≡◌, ◌≤◌, length};
ghost use Rattle.preview.specs.Picture.{read_of, picture_of};

use crate::points::{PanelSlot, amount_of, increment_of, inner_of, map_of, word_at};
use crate::shaping::shape_slot;
use phase::{MapSetting, Reading, Tables, mapped_sum};
use reads::Cycle;

// The sums of all points' reads.
fn read(
    tables: Tables<'_>,
    cycle: Cycle<'_>,
    map0: Option<MapSetting>,
    map1: Option<MapSetting>,
    picture: &mut [f32],
)
    requires { length picture.old ≤ 4096 }
    ensures { picture.new ≡ read_of tables.entry.numbers tables.entry.curve.values.now cycle.entry.samples.now
        map0 map1 (length picture.old) }
{
    let points = picture.len();
    let reading = Reading {
        cycle,
        offset: None,
    };
    for (i, x) in picture.iter_mut().enumerate() {
        *x = mapped_sum::<true>(tables, reading, map0, map1, word_at(points, i));
    }
}

// The picture of a call that is accepted, and how many points it has: the reads, then slot 0 and slot 1.
pub fn draw(
    tables: Tables<'_>,
    cycle: Cycle<'_>,
    panel0: PanelSlot,
    panel1: PanelSlot,
    picture: &mut [f32],
) -> u32
    requires { length picture.old ≤ 4096 }
    ensures count { result ≡ length picture.old }
    ensures drawn { picture.new ≡ picture_of tables.entry.numbers tables.entry.curve.values.now cycle.entry.samples.now
        panel0.slot panel1.slot panel0.percent panel1.percent (length picture.old) }
{
    let points = picture.len();
    let increment = increment_of(points);
    let slot0 = panel0.slot;
    let slot1 = panel1.slot;
    let a0 = amount_of(panel0.percent);
    let a1 = amount_of(panel1.percent);
    let inner = inner_of(slot1.mode, a1, tables.curve);
    let half = 0.25 * increment;
    let map0 = map_of(slot0, a0, half * inner);
    let map1 = map_of(slot1, a1, half);
    read(tables, cycle, map0, map1, picture);
    shape_slot(tables.numbers, slot0, a0, increment, picture);
    shape_slot(tables.numbers, slot1, a1, increment, picture);
    points as u32
}
