// What the C face does with cells: their corners and their boundaries. A slice with fewer elements than the values gets BadRows, whatever the
// entry would say, and a refusal writes nothing.
#![tactic(auto)]

ghost use Rattle.std.specs.Prelude.{◌≡◌, ◌∷◌};
ghost use Rattle.reply.specs.Replies.{verdict_number};
ghost use Rattle.lent.specs.Lent.{Gives, at, bits_of};
ghost use Rattle.boundary.specs.Corners.{coords_values, corners_reply};
ghost use Rattle.boundary.specs.Boundaries.{points_values, said_boundary, boundary_reply};
ghost use Rattle.lent_borders.specs.Borders.{marks_of, points_in, GivesBoundary};

use boundary::{Boundary, BoundaryPoint};
use coordijk::CoordIJK;
use faceijk::Place;
use level::CellLevel;
use reply::Refusal;

// Stores the grid level and i, j, k of each corner.
fn put_corners(out: &mut [u32; 19], grid: u32, corners: [CoordIJK; 6])
    ensures { out.new ≡ grid ∷ coords_values corners }
{
    lent::put(out, 0, &[grid]);
    for v in 0..6 {
        let c = corners[v];
        lent::put(out, 3 * v + 1, &[c.i, c.j, c.k]);
    }
}

// The grid level of a cell, and i, j, k of its six corners.
pub fn corners(
    face: u32,
    i: u32,
    j: u32,
    k: u32,
    level: u32,
    out: &mut [u32],
) -> Result<(), Refusal>
    ensures { Gives 19 (corners_reply (at face i j k) level) out.old out.new (verdict_number result) }
{
    let values = out.first_chunk_mut::<19>().ok_or(Refusal::BadRows)?;
    let cell = boundary::corners_of(Place::new(face, i, j, k), CellLevel(level))?;
    put_corners(values, cell.level.0, cell.corners);
    Ok(())
}

// Stores the count, and face and mark of each point. This and `give` are compiled into the entries: called, they would have the points written to
// memory and read back, and a hexagon's boundary would take half as long again.
#[inline(always)]
fn put_marks(marks: &mut [u32; 25], count: u32, points: [BoundaryPoint; 12])
    ensures { marks.new ≡ marks_of (count ∷ points_values points) }
{
    lent::put(marks, 0, &[count]);
    for v in 0..12 {
        let p = points[v];
        lent::put(marks, 2 * v + 1, &[p.face, p.mark]);
    }
}

// Stores x and y of each point.
fn put_points(out: &mut [f64; 24], points: [BoundaryPoint; 12])
    ensures { bits_of out.new ≡ points_in (points_values points) }
{
    for v in 0..12 {
        let p = points[v];
        lent::put(out, 2 * v, &[p.x, p.y]);
    }
}

// Gives a boundary out.
#[inline(always)]
fn give(
    border: Result<Boundary, Refusal>,
    marks: &mut [u32],
    points: &mut [f64],
) -> Result<(), Refusal>
    ensures { GivesBoundary (said_boundary border) marks.old marks.new (bits_of points.old) (bits_of points.new) (verdict_number result) }
{
    let marked = marks.first_chunk_mut::<25>().ok_or(Refusal::BadRows)?;
    let pointed = points.first_chunk_mut::<24>().ok_or(Refusal::BadRows)?;
    let border = border?;
    put_marks(marked, border.count, border.points);
    put_points(pointed, border.points);
    Ok(())
}

// The boundary of a hexagon: length corners from the corner start on, with the crossing points between them.
pub fn hexagon(
    face: u32,
    i: u32,
    j: u32,
    k: u32,
    level: u32,
    start: u32,
    length: u32,
    marks: &mut [u32],
    points: &mut [f64],
) -> Result<(), Refusal>
    ensures { GivesBoundary (boundary_reply 6 (at face i j k) level start length) marks.old marks.new (bits_of points.old) (bits_of points.new) (verdict_number result) }
{
    let border = boundary::hexagon_boundary(
        Place::new(face, i, j, k),
        CellLevel(level),
        start,
        length,
    );
    give(border, marks, points)
}

// The same of a pentagon.
pub fn pentagon(
    face: u32,
    i: u32,
    j: u32,
    k: u32,
    level: u32,
    start: u32,
    length: u32,
    marks: &mut [u32],
    points: &mut [f64],
) -> Result<(), Refusal>
    ensures { GivesBoundary (boundary_reply 5 (at face i j k) level start length) marks.old marks.new (bits_of points.old) (bits_of points.new) (verdict_number result) }
{
    let border = boundary::pentagon_boundary(
        Place::new(face, i, j, k),
        CellLevel(level),
        start,
        length,
    );
    give(border, marks, points)
}
