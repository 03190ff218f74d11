// What the C face does on the sphere: roots, points and boundaries. A slice with fewer elements than the values gets BadRows, whatever the entry
// would say, but for a bad frame, which gets BadFrame even there. A refusal writes nothing.
#![tactic(auto)]

ghost use Rattle.std.specs.Prelude.{◌≡◌, ◌∷◌};
ghost use Rattle.vec2d.specs.Points.{point};
ghost use Rattle.vec3d.specs.Frame.{bad_frame};
ghost use Rattle.root.specs.Root.{root_reply};
ghost use Rattle.globe.specs.Points.{sphere_reply};
ghost use Rattle.globe.specs.Boundaries.{sides_of, sphere_points_values, globe_reply};
ghost use Rattle.reply.specs.Replies.{verdict_number};
ghost use Rattle.lent.specs.Lent.{Gives, GivesFramed, at, bits_of};
ghost use Rattle.lent_globe.specs.Globes.{marks_of, vectors_in, GivesGlobe};

use faceijk::Place;
use globe::{Outline, SpherePoint};
use level::{CellLevel, GridLevel};
use reply::Refusal;
use vec2d::Vec2d;

// The square root of a number.
pub fn root(x: f64, out: &mut [f64]) -> Result<(), Refusal>
    ensures { Gives 1 (root_reply x) (bits_of out.old) (bits_of out.new) (verdict_number result) }
{
    let values = out.first_chunk_mut::<1>().ok_or(Refusal::BadRows)?;
    lent::put(values, 0, &[root::square_root(x)?]);
    Ok(())
}

// A plane point of a face on the substrate grid of a grid level, as a unit vector: x, y, z.
pub fn sphere(
    frame: &[f64],
    face: u32,
    level: u32,
    x: f64,
    y: f64,
    out: &mut [f64],
) -> Result<(), Refusal>
    ensures { GivesFramed (bad_frame frame.now) 3 (sphere_reply frame.now face level (point x y)) (bits_of out.old) (bits_of out.new) (verdict_number result) }
{
    let Some(values) = out.first_chunk_mut::<3>() else {
        return Err(lent_places::frame_or_rows(frame));
    };
    let v = globe::sphere_point(frame, face, GridLevel(level), Vec2d::new(x, y))?;
    lent::put(values, 0, &[v.x, v.y, v.z]);
    Ok(())
}

// Stores the count, and face and mark of each point.
fn put_marks(marks: &mut [u32; 25], count: u32, points: [SpherePoint; 12])
    ensures { marks.new ≡ marks_of (count ∷ sphere_points_values points) }
{
    lent::put(marks, 0, &[count]);
    for v in 0..12 {
        let p = points[v];
        lent::put(marks, 2 * v + 1, &[p.face, p.mark]);
    }
}

// Stores x, y and z of each point.
fn put_vectors(out: &mut [f64; 36], points: [SpherePoint; 12])
    ensures { bits_of out.new ≡ vectors_in (sphere_points_values points) }
{
    for v in 0..12 {
        let p = points[v];
        lent::put(out, 3 * v, &[p.x, p.y, p.z]);
    }
}

// The boundary of a cell on the sphere: length corners from the corner start on, with the crossing points between them.
pub fn border(
    frame: &[f64],
    outline: Outline,
    centre: Place,
    level: u32,
    start: u32,
    length: u32,
    marks: &mut [u32],
    points: &mut [f64],
) -> Result<(), Refusal>
    ensures { GivesGlobe (bad_frame frame.now) (globe_reply (sides_of outline) frame.now centre level start length) marks.old marks.new (bits_of points.old) (bits_of points.new) (verdict_number result) }
{
    let Some(marked) = marks.first_chunk_mut::<25>() else {
        return Err(lent_places::frame_or_rows(frame));
    };
    let Some(pointed) = points.first_chunk_mut::<36>() else {
        return Err(lent_places::frame_or_rows(frame));
    };
    let border = globe::sphere_boundary(frame, outline, centre, CellLevel(level), start, length)?;
    put_marks(marked, border.count, border.points);
    put_vectors(pointed, border.points);
    Ok(())
}

// The same of a hexagon.
pub fn hexagon(
    frame: &[f64],
    face: u32,
    i: u32,
    j: u32,
    k: u32,
    level: u32,
    start: u32,
    length: u32,
    marks: &mut [u32],
    points: &mut [f64],
) -> Result<(), Refusal>
    ensures { GivesGlobe (bad_frame frame.now) (globe_reply 6 frame.now (at face i j k) level start length) marks.old marks.new (bits_of points.old) (bits_of points.new) (verdict_number result) }
{
    border(
        frame,
        Outline::Hexagon,
        Place::new(face, i, j, k),
        level,
        start,
        length,
        marks,
        points,
    )
}

// And of a pentagon.
pub fn pentagon(
    frame: &[f64],
    face: u32,
    i: u32,
    j: u32,
    k: u32,
    level: u32,
    start: u32,
    length: u32,
    marks: &mut [u32],
    points: &mut [f64],
) -> Result<(), Refusal>
    ensures { GivesGlobe (bad_frame frame.now) (globe_reply 5 frame.now (at face i j k) level start length) marks.old marks.new (bits_of points.old) (bits_of points.new) (verdict_number result) }
{
    border(
        frame,
        Outline::Pentagon,
        Place::new(face, i, j, k),
        level,
        start,
        length,
        marks,
        points,
    )
}
