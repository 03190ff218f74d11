// What the C face does with a lent frame: the nearest face, a plane point, a place, a batch. A slice with fewer elements than the values gets BadRows,
// whatever the entry would say, but for a bad frame, which gets BadFrame even there. A refusal writes nothing.
#![tactic(auto)]

ghost use Rattle.std.specs.Prelude.{◌≡◌};
ghost use Rattle.reply.specs.Choice.{pick};
ghost use Rattle.reply.specs.declared.Refusal.TheVariants.{BadFrame, BadRows};
ghost use Rattle.reply.specs.Replies.{verdict_number};
ghost use Rattle.lent.specs.Lent.{GivesFramed, GivesParts, bits_of};
ghost use Rattle.vec3d.specs.Frame.{bad_frame};
ghost use Rattle.vec3d.specs.Nearest.{nearest_reply};
ghost use Rattle.face_projection.specs.Projection.{plane_reply};
ghost use Rattle.locate.specs.Locating.{locate_reply};
ghost use Rattle.lent_places.specs.Places.{vec, GivesBatch};

use level::CellLevel;
use reply::Refusal;
use vec3d::Vec3d;

// What a slice that is too short gets. Public for the calls of the sphere.
pub fn frame_or_rows(frame: &[f64]) -> Refusal
    ensures { result ≡ pick (bad_frame frame.now) BadFrame BadRows }
{
    if vec3d::bad_frame(frame) {
        Refusal::BadFrame
    } else {
        Refusal::BadRows
    }
}

// The face nearest to a unit vector, and its squared distance.
pub fn nearest(
    frame: &[f64],
    x: f64,
    y: f64,
    z: f64,
    face: &mut [u32],
    distance: &mut [f64],
) -> Result<(), Refusal>
    ensures { GivesParts (bad_frame frame.now) 1 1 (nearest_reply frame.now (vec x y z)) face.old face.new (bits_of distance.old) (bits_of distance.new) (verdict_number result) }
{
    let Some(nearest) = face.first_chunk_mut::<1>() else {
        return Err(frame_or_rows(frame));
    };
    let Some(squared) = distance.first_chunk_mut::<1>() else {
        return Err(frame_or_rows(frame));
    };
    let n = vec3d::nearest_face(frame, Vec3d::new(x, y, z))?;
    lent::put(nearest, 0, &[n.face]);
    lent::put(squared, 0, &[n.distance]);
    Ok(())
}

// The plane point of a unit vector on a named face at a cell level: x, y.
pub fn plane_point(
    frame: &[f64],
    face: u32,
    level: u32,
    x: f64,
    y: f64,
    z: f64,
    out: &mut [f64],
) -> Result<(), Refusal>
    ensures { GivesFramed (bad_frame frame.now) 2 (plane_reply frame.now face level (vec x y z)) (bits_of out.old) (bits_of out.new) (verdict_number result) }
{
    let Some(values) = out.first_chunk_mut::<2>() else {
        return Err(frame_or_rows(frame));
    };
    let v = face_projection::plane_point(frame, face, CellLevel(level), Vec3d::new(x, y, z))?;
    lent::put(values, 0, &[v.x, v.y]);
    Ok(())
}

// The place of a unit vector at a cell level: face, i, j, k; and the leftovers r1, r2.
pub fn place(
    frame: &[f64],
    x: f64,
    y: f64,
    z: f64,
    level: u32,
    out: &mut [u32],
    left: &mut [f64],
) -> Result<(), Refusal>
    ensures { GivesParts (bad_frame frame.now) 4 2 (locate_reply frame.now level (vec x y z)) out.old out.new (bits_of left.old) (bits_of left.new) (verdict_number result) }
{
    let Some(place) = out.first_chunk_mut::<4>() else {
        return Err(frame_or_rows(frame));
    };
    let Some(leftovers) = left.first_chunk_mut::<2>() else {
        return Err(frame_or_rows(frame));
    };
    let found = locate::locate(frame, CellLevel(level), Vec3d::new(x, y, z))?;
    let l = found.left;
    lent::put(place, 0, &lent::numbers(found.place));
    lent::put(leftovers, 0, &[l.r1, l.r2]);
    Ok(())
}

// The places of a batch into lent rows, and how many were refused.
pub fn batch(
    frame: &[f64],
    level: u32,
    input: &[f64],
    out: &mut [i32],
    first: usize,
    refused: &mut [u64],
) -> Result<(), Refusal>
    ensures { GivesBatch frame.now level input.now first out.old out.new refused.old refused.new (verdict_number result) }
{
    let Some(count) = refused.first_chunk_mut::<1>() else {
        return Err(frame_or_rows(frame));
    };
    let n = locate::locate_all(frame, CellLevel(level), input, out, first)?;
    lent::put(count, 0, &[n as u64]);
    Ok(())
}
