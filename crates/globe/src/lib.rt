// Boundary points on the sphere: a plane point of a face becomes a unit vector, and so does every point of a cell's boundary.
#![tactic(auto)]

ghost use Rattle.std.specs.Prelude.{◌≡◌, false, ◌+◌, ◌≤◌, ◌<◌};
ghost use Rattle.level.specs.Levels.{bad_grid};
ghost use Rattle.vec3d.specs.Frame.{bad_frame};
ghost use Rattle.boundary.specs.Boundaries.{turns_for};
ghost use Rattle.boundary.specs.AsWalked.{Solid, Fit, Deep};
ghost use Rattle.globe.specs.Points.{scale_of, along_of, reached_of, divided_by, said_lifted, sphere_reply};
ghost use Rattle.globe.specs.Boundaries.{sides_of, with_vector, said_globe, globe_reply};
ghost use Rattle.globe.specs.AsWorked.{length_of, lifted_of, imaged_of, over_of, turned_of, within_of};

use boundary::{BoundaryPoint, Cell, Shape};
use faceijk::{Landed, Overage, Place};
use level::{CellLevel, GridLevel};
use reply::Refusal;
use vec2d::Vec2d;
use vec3d::{FaceAxes, Vec3d};

// What a boundary goes round, by the number of its sides.
#[derive(Clone, Copy, Debug, PartialEq, Eq)]
pub enum Outline {
    Hexagon = 6,
    Pentagon = 5,
}

// A point of a boundary on the sphere. Face and mark are those of the plane point that it is the image of; at mark 0 it is unused.
#[derive(Clone, Copy, Debug, PartialEq)]
pub struct SpherePoint {
    pub face: u32,
    pub mark: u32,
    pub x: f64,
    pub y: f64,
    pub z: f64,
}

// A count, and in the same record room for twelve points.
#[derive(Clone, Copy, Debug, PartialEq)]
pub struct SphereBoundary {
    pub count: u32,
    pub points: [SpherePoint; 12],
}

// The squared length below which a point counts as behind.
const BEHIND: f64 = 0.25;

fn along(c: f64, x: f64, u: f64, y: f64, v: f64) -> f64
    ensures { result ≡ along_of c x u y v }
{
    (c + x * u) + y * v
}

// Where a plane point lies in space.
fn reach(axes: FaceAxes, scale: f64, p: Vec2d) -> Vec3d
    ensures { result ≡ reached_of axes scale p }
{
    let c = axes.centre;
    let u = axes.u;
    let v = axes.v;
    let square = u.dot(u);
    let x = p.x / scale / square;
    let y = p.y / scale / square;
    Vec3d::new(
        along(c.x, x, u.x, y, v.x),
        along(c.y, x, u.y, y, v.y),
        along(c.z, x, u.z, y, v.z),
    )
}

// The root of a squared length. A point that is no number and a u of length zero have left no finite one, so that it alone is tested.
fn length_of(square: f64) -> Result<f64, Refusal>
    ensures { result ≡ length_of square }
{
    if double::is_finite(square) {
        if square < BEHIND {
            return Err(Refusal::Behind);
        }
        return Ok(root::positive_root(square));
    }
    Err(Refusal::BadNumber)
}

fn divided(v: Vec3d, length: f64) -> Vec3d
    ensures { result ≡ divided_by length v }
{
    Vec3d::new(v.x / length, v.y / length, v.z / length)
}

// The point on the sphere of a plane point.
fn lift(axes: FaceAxes, scale: f64, p: Vec2d) -> Result<Vec3d, Refusal>
    ensures { result ≡ lifted_of axes scale p }
{
    let v = reach(axes, scale, p);
    let l = length_of(v.dot(v))?;
    Ok(divided(v, l))
}

// The unit of a substrate grid.
fn scale_of(level: GridLevel) -> f64
    requires { bad_grid level.0 ≡ false }
    ensures { result ≡ scale_of level.0 }
{
    f64::from(level.grid(true).unwrap().unit)
}

// A plane point of a face on the substrate grid of a grid level, as a unit vector.
pub fn sphere_point(frame: &[f64], face: u32, level: GridLevel, p: Vec2d) -> Result<Vec3d, Refusal>
    ensures { said_lifted result ≡ sphere_reply frame.now face level.0 p }
{
    if vec3d::bad_frame(frame) {
        return Err(Refusal::BadFrame);
    }
    if Place::LAST_FACE < face {
        return Err(Refusal::BadFace);
    }
    level.verdict()?;
    lift(vec3d::face_at(frame, face), scale_of(level), p)
}

impl SpherePoint {
    const UNUSED: SpherePoint = SpherePoint {
        face: 0,
        mark: 0,
        x: 0.0,
        y: 0.0,
        z: 0.0,
    };

    fn on(face: u32, mark: u32, v: Vec3d) -> SpherePoint
        ensures { result ≡ with_vector face mark v }
    {
        SpherePoint {
            face,
            mark,
            x: v.x,
            y: v.y,
            z: v.z,
        }
    }

    // The point with its vector divided.
    fn over(self, length: f64) -> SpherePoint
        ensures { result ≡ over_of length self }
    {
        SpherePoint {
            x: self.x / length,
            y: self.y / length,
            z: self.z / length,
            ..self
        }
    }
}

// A plane point by its face's axes, with its face and mark.
fn image_of(frame: &[f64], scale: f64, p: BoundaryPoint) -> Result<SpherePoint, Refusal>
    requires { (bad_frame frame.now ≡ false) × (p.face < 20) }
    ensures { result ≡ imaged_of frame.now scale p }
{
    let v = lift(vec3d::face_at(frame, p.face), scale, Vec2d::new(p.x, p.y))?;
    Ok(SpherePoint::on(p.face, p.mark, v))
}

// So many turns round a shape: the points in order, or the refusal of the first one that is refused.
fn walk(frame: &[f64], shape: Shape, turns: u32) -> Result<SphereBoundary, Refusal>
    requires { (bad_frame frame.now ≡ false) × Fit shape × (turns ≤ shape.sides + 1) }
    ensures { result ≡ turned_of frame.now shape turns }
{
    let mut points = [SpherePoint::UNUSED; 12];
    let mut count: usize = 0;
    let scale = f64::from(shape.cell.grid.unit);
    let centre = shape.cell.centre;
    let mut last = Landed {
        place: centre,
        overage: Overage::None,
    };
    for k in 0..turns {
        let now = shape.landed(k);
        if let Some(p) = shape.before(k, last, now)? {
            points[count] = image_of(frame, scale, p)?;
            count += 1;
        }
        if k < shape.sides {
            points[count] = image_of(frame, scale, BoundaryPoint::corner(now.place))?;
            count += 1;
        }
        last = now;
    }
    Ok(SphereBoundary {
        count: count as u32,
        points,
    })
}

// A hexagon whose corners all stay on its face, which is read once. The corners are worked out side by side, one stage after the other, so that no root waits for
// the division before it.
fn inside(frame: &[f64], shape: Shape, length: u32) -> Result<SphereBoundary, Refusal>
    requires { (bad_frame frame.now ≡ false) × Deep shape × (length ≤ shape.sides) }
    ensures { result ≡ turned_of frame.now shape (turns_for shape.sides length) }
{
    let mut points = [SpherePoint::UNUSED; 12];
    let mut lengths = [0.0; 6];
    let face = shape.cell.centre.face;
    let axes = vec3d::face_at(frame, face);
    let scale = f64::from(shape.cell.grid.unit);
    for k in 0..length {
        let v = reach(axes, scale, Vec2d::from_ijk(shape.corner(k).coord()));
        points[k as usize] = SpherePoint::on(face, BoundaryPoint::CORNER, v);
        lengths[k as usize] = v.dot(v);
    }
    for l in 0..length {
        lengths[l as usize] = length_of(lengths[l as usize])?;
    }
    for m in 0..length {
        points[m as usize] = points[m as usize].over(lengths[m as usize]);
    }
    Ok(SphereBoundary {
        count: length,
        points,
    })
}

// A shape's boundary, unless the centre lies out of its face. No offset of a corner has a sum above 9.
fn border(frame: &[f64], shape: Shape, length: u32) -> Result<SphereBoundary, Refusal>
    requires { (bad_frame frame.now ≡ false) × Solid shape × (length ≤ shape.sides) }
    ensures { result ≡ within_of frame.now shape length }
{
    let centre = shape.cell.centre;
    let sum = centre.sum();
    let limit = 3 * u64::from(shape.cell.m);
    if limit < sum {
        return Err(Refusal::OutOfFace);
    }
    let sides = shape.sides;
    if (sides == 6) & (sum + 9 < limit) {
        return inside(frame, shape, length);
    }
    walk(frame, shape, boundary::turns_for(sides, length))
}

impl Outline {
    fn sides(self) -> u32
        ensures { result ≡ sides_of self }
    {
        self as u32
    }
}

// The boundary of a cell on the sphere: length corners from the corner start on, with the crossing points between them. One entry for both outlines, as two would
// each be too large to be compiled into what calls them.
pub fn sphere_boundary(
    frame: &[f64],
    outline: Outline,
    centre: Place,
    level: CellLevel,
    start: u32,
    length: u32,
) -> Result<SphereBoundary, Refusal>
    ensures { said_globe result ≡ globe_reply (sides_of outline) frame.now centre level.0 start length }
{
    if vec3d::bad_frame(frame) {
        return Err(Refusal::BadFrame);
    }
    let sides = outline.sides();
    boundary::cell_verdict(centre, level, (sides <= start) | (sides < length))?;
    let cell = Cell::made(centre, level);
    border(frame, Shape { cell, sides, start }, length)
}
