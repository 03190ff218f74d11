// What the C face does with levels, plane points and places: grids, reducing and the maps, rounding and margins, centres, where lines meet,
// the moves between faces, and the names of corners. A slice with fewer elements than the values gets BadRows, whatever the entry would say, and
// a refusal writes nothing.
#![tactic(auto)]

ghost use Rattle.std.specs.Prelude.{◌≡◌, false, ◌+◌, ◌≤◌, length, Ok, Err};
ghost use Rattle.faceijk.specs.Entries.{turn_reply, step_reply, cross_reply, settle_reply, direction_reply};
ghost use Rattle.names.specs.Entries.{first_reply, same_reply};
ghost use Rattle.reply.specs.Choice.{pick};
ghost use Rattle.reply.specs.declared.Refusal.TheVariants.{BadRange};
ghost use Rattle.reply.specs.Replies.{answer, verdict_number};
ghost use Rattle.level.specs.Levels.{raise_reply, grid_reply};
ghost use Rattle.vec2d.specs.Points.{point, point_at, said_pointed};
ghost use Rattle.vec2d.specs.Meeting.{line_at};
ghost use Rattle.vec2d.specs.Closeness.{alike_reply};
ghost use Rattle.coordijk.specs.Coordinates.{coord, reduced, coord_values};
ghost use Rattle.vec2d.specs.Rounding.{leftovers, round_reply};
ghost use Rattle.vec2d.specs.Centre.{centre_reply};
ghost use Rattle.margin.specs.Margins.{margin_reply};
ghost use Rattle.lent.specs.Lent.{Gives, GivesParts, bits_of, at};
ghost use Rattle.lent_grid.specs.Lines.{lines_reply};
ghost use Rattle.lent_grid.specs.Numbered.{bad_map, map_at, numbered_reply};

use coordijk::{CoordIJK, GridMap};
use faceijk::Place;
use level::{CellLevel, GridLevel};
use reply::Refusal;
use vec2d::{Leftovers, Line, Vec2d};

// A cell level to its grid level: an odd one is raised by one.
pub fn raise(level: u32, out: &mut [u32]) -> Result<(), Refusal>
    ensures { Gives 1 (raise_reply level) out.old out.new (verdict_number result) }
{
    let values = out.first_chunk_mut::<1>().ok_or(Refusal::BadRows)?;
    let g = CellLevel(level).raise()?;
    lent::put(values, 0, &[g.0]);
    Ok(())
}

// The grid of a level: its unit scale, its limit, and 1 for a substrate grid, 0 for a plain one.
pub fn grid(level: u32, substrate: bool, out: &mut [u32]) -> Result<(), Refusal>
    ensures { Gives 3 (grid_reply level substrate) out.old out.new (verdict_number result) }
{
    let values = out.first_chunk_mut::<3>().ok_or(Refusal::BadRows)?;
    let g = GridLevel(level).grid(substrate)?;
    lent::put(values, 0, &[g.unit, g.limit, u32::from(g.substrate)]);
    Ok(())
}

// The least coordinate taken from all three: i, j, k. Any triple is taken.
pub fn reduce(i: u32, j: u32, k: u32, out: &mut [u32]) -> Result<(), Refusal>
    ensures { Gives 3 (answer (coord_values (reduced i j k))) out.old out.new (verdict_number result) }
{
    let values = out.first_chunk_mut::<3>().ok_or(Refusal::BadRows)?;
    let c = CoordIJK::new(i, j, k).reduce();
    lent::put(values, 0, &[c.i, c.j, c.k]);
    Ok(())
}

// The map of a number 1..5.
#[tactic(auto, unfolding(crate::specs::Numbered::map_at))]
fn map_at(n: u32) -> Result<GridMap, Refusal>
    ensures { result ≡ pick (bad_map n) (Err BadRange) (Ok (map_at n)) }
{
    match n {
        1 => Ok(GridMap::SixthTurnCcw),
        2 => Ok(GridMap::SixthTurnCw),
        3 => Ok(GridMap::Aperture3Ccw),
        4 => Ok(GridMap::Aperture3Cw),
        5 => Ok(GridMap::Aperture7Cw),
        _ => Err(Refusal::BadRange),
    }
}

// A triple under one of the five maps, which are named by the number of their row, 1..5: i, j, k.
pub fn map(map: u32, i: u32, j: u32, k: u32, out: &mut [u32]) -> Result<(), Refusal>
    ensures { Gives 3 (numbered_reply map (coord i j k)) out.old out.new (verdict_number result) }
{
    let values = out.first_chunk_mut::<3>().ok_or(Refusal::BadRows)?;
    let numbered = map_at(map)?;
    let c = CoordIJK::new(i, j, k).map(numbered)?;
    lent::put(values, 0, &[c.i, c.j, c.k]);
    Ok(())
}

// The hexagon of a plane point: i, j, k; and the leftovers r1, r2.
pub fn round(x: f64, y: f64, out: &mut [u32], left: &mut [f64]) -> Result<(), Refusal>
    ensures { GivesParts false 3 2 (round_reply (point x y)) out.old out.new (bits_of left.old) (bits_of left.new) (verdict_number result) }
{
    let hexagon = out.first_chunk_mut::<3>().ok_or(Refusal::BadRows)?;
    let leftovers = left.first_chunk_mut::<2>().ok_or(Refusal::BadRows)?;
    let found = Vec2d::new(x, y).to_ijk()?;
    let c = found.hexagon;
    let l = found.left;
    lent::put(hexagon, 0, &[c.i, c.j, c.k]);
    lent::put(leftovers, 0, &[l.r1, l.r2]);
    Ok(())
}

// How far a point with these leftovers was from the nearest border of its hexagon, in hexagons.
pub fn margin(r1: f64, r2: f64, out: &mut [f64]) -> Result<(), Refusal>
    ensures { Gives 1 (margin_reply (leftovers r1 r2)) (bits_of out.old) (bits_of out.new) (verdict_number result) }
{
    let values = out.first_chunk_mut::<1>().ok_or(Refusal::BadRows)?;
    lent::put(values, 0, &[margin::margin(Leftovers { r1, r2 })?]);
    Ok(())
}

// The centre of a hexagon: x, y.
pub fn centre(i: u32, j: u32, k: u32, out: &mut [f64]) -> Result<(), Refusal>
    ensures { Gives 2 (centre_reply (coord i j k)) (bits_of out.old) (bits_of out.new) (verdict_number result) }
{
    let values = out.first_chunk_mut::<2>().ok_or(Refusal::BadRows)?;
    let v = Vec2d::centre(CoordIJK::new(i, j, k))?;
    lent::put(values, 0, &[v.x, v.y]);
    Ok(())
}

fn point_at(lines: &[f64], at: usize) -> Vec2d
    requires { at + 2 ≤ length lines.now }
    ensures { result ≡ point_at lines.now at }
{
    Vec2d::new(lines[at], lines[at + 1])
}

fn line_at(lines: &[f64], at: usize) -> Line
    requires { at + 4 ≤ length lines.now }
    ensures { result ≡ line_at lines.now at }
{
    Line {
        from: point_at(lines, at),
        to: point_at(lines, at + 2),
    }
}

fn met(lines: &[f64]) -> Result<Vec2d, Refusal>
    ensures { said_pointed result ≡ lines_reply lines.now }
{
    if lines.len() != 8 {
        return Err(Refusal::BadRows);
    }
    line_at(lines, 0).meet(line_at(lines, 4))
}

// Where two lines meet: x, y. The lines are eight doubles, x and y of the first from and to, then of the second.
pub fn meet(lines: &[f64], out: &mut [f64]) -> Result<(), Refusal>
    ensures { Gives 2 (lines_reply lines.now) (bits_of out.old) (bits_of out.new) (verdict_number result) }
{
    let values = out.first_chunk_mut::<2>().ok_or(Refusal::BadRows)?;
    let v = met(lines)?;
    lent::put(values, 0, &[v.x, v.y]);
    Ok(())
}

// Whether both parts of two points differ by at most 2^-23: 1 yes, 0 no.
pub fn alike(x: f64, y: f64, other_x: f64, other_y: f64, out: &mut [u32]) -> Result<(), Refusal>
    ensures { Gives 1 (alike_reply (point x y) (point other_x other_y)) out.old out.new (verdict_number result) }
{
    let values = out.first_chunk_mut::<1>().ok_or(Refusal::BadRows)?;
    let alike = Vec2d::new(x, y).alike(Vec2d::new(other_x, other_y))?;
    lent::put(values, 0, &[u32::from(alike)]);
    Ok(())
}

// The direction from one face to another: 0, 1, 2, 3 or 7.
pub fn direction(from: u32, to: u32, out: &mut [u32]) -> Result<(), Refusal>
    ensures { Gives 1 (direction_reply from to) out.old out.new (verdict_number result) }
{
    let values = out.first_chunk_mut::<1>().ok_or(Refusal::BadRows)?;
    let d = faceijk::face_direction(from, to)?;
    lent::put(values, 0, &[d.number()]);
    Ok(())
}

// A sixth turn: face, i, j, k.
pub fn turn(
    face: u32,
    i: u32,
    j: u32,
    k: u32,
    clockwise: bool,
    out: &mut [u32],
) -> Result<(), Refusal>
    ensures { Gives 4 (turn_reply (at face i j k) clockwise) out.old out.new (verdict_number result) }
{
    let values = out.first_chunk_mut::<4>().ok_or(Refusal::BadRows)?;
    let p = Place::new(face, i, j, k).turn(clockwise)?;
    lent::put(values, 0, &lent::numbers(p));
    Ok(())
}

// The step over a named edge: face, i, j, k.
pub fn step(
    face: u32,
    i: u32,
    j: u32,
    k: u32,
    level: u32,
    substrate: bool,
    edge: u32,
    out: &mut [u32],
) -> Result<(), Refusal>
    ensures { Gives 4 (step_reply (at face i j k) level substrate edge) out.old out.new (verdict_number result) }
{
    let values = out.first_chunk_mut::<4>().ok_or(Refusal::BadRows)?;
    let p = Place::new(face, i, j, k).step(GridLevel(level), substrate, edge)?;
    lent::put(values, 0, &lent::numbers(p));
    Ok(())
}

// Crossing: face, i, j, k, and 0 for None, 1 for FaceEdge, 2 for NewFace.
pub fn cross(
    face: u32,
    i: u32,
    j: u32,
    k: u32,
    level: u32,
    substrate: bool,
    turn: bool,
    out: &mut [u32],
) -> Result<(), Refusal>
    ensures { Gives 5 (cross_reply (at face i j k) level substrate turn) out.old out.new (verdict_number result) }
{
    let values = out.first_chunk_mut::<5>().ok_or(Refusal::BadRows)?;
    let l = Place::new(face, i, j, k).cross(GridLevel(level), substrate, turn)?;
    lent::put(
        values,
        0,
        &[
            l.place.face,
            l.place.i,
            l.place.j,
            l.place.k,
            l.overage.number(),
        ],
    );
    Ok(())
}

// Settling: face, i, j, k, and the number of steps.
pub fn settle(
    face: u32,
    i: u32,
    j: u32,
    k: u32,
    level: u32,
    substrate: bool,
    out: &mut [u64],
) -> Result<(), Refusal>
    ensures { Gives 5 (settle_reply (at face i j k) level substrate) out.old out.new (verdict_number result) }
{
    let values = out.first_chunk_mut::<5>().ok_or(Refusal::BadRows)?;
    let s = Place::new(face, i, j, k).settle(GridLevel(level), substrate)?;
    lent::put(
        values,
        0,
        &[
            u64::from(s.place.face),
            u64::from(s.place.i),
            u64::from(s.place.j),
            u64::from(s.place.k),
            s.steps,
        ],
    );
    Ok(())
}

// The first name of a corner: face, i, j, k.
pub fn first_name(
    face: u32,
    i: u32,
    j: u32,
    k: u32,
    level: u32,
    out: &mut [u32],
) -> Result<(), Refusal>
    ensures { Gives 4 (first_reply (at face i j k) level) out.old out.new (verdict_number result) }
{
    let values = out.first_chunk_mut::<4>().ok_or(Refusal::BadRows)?;
    let p = names::first_name(Place::new(face, i, j, k), GridLevel(level))?;
    lent::put(values, 0, &lent::numbers(p));
    Ok(())
}

// Whether two corners are the same: 1 yes, 0 no.
pub fn same_corner(
    face: u32,
    i: u32,
    j: u32,
    k: u32,
    other_face: u32,
    other_i: u32,
    other_j: u32,
    other_k: u32,
    level: u32,
    out: &mut [u32],
) -> Result<(), Refusal>
    ensures { Gives 1 (same_reply (at face i j k) (at other_face other_i other_j other_k) level) out.old out.new (verdict_number result) }
{
    let values = out.first_chunk_mut::<1>().ok_or(Refusal::BadRows)?;
    let other = Place::new(other_face, other_i, other_j, other_k);
    let same = names::same_corner(Place::new(face, i, j, k), other, GridLevel(level))?;
    lent::put(values, 0, &[u32::from(same)]);
    Ok(())
}
