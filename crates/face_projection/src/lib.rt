// From a unit vector and a face to the point of the face's plane at a cell level: the source's `face_projection.rs` with dot products in place of
// its trigonometry.
#![tactic(auto)]

ghost use Rattle.std.specs.Prelude.{◌≡◌, ◌/◌, ◌≤◌};
ghost use Rattle.reply.specs.Replies.{first};
ghost use Rattle.vec2d.specs.Points.{said_pointed};
ghost use Rattle.face_projection.specs.Projection.{seven_to, projection_of, at_level, projected_of, before_reasons, plane_reply};

use faceijk::Place;
use level::CellLevel;
use reply::Refusal;
use vec2d::Vec2d;
use vec3d::{FaceAxes, Vec3d};

// The part of the projection that all levels share: x0 and y0.
#[derive(Clone, Copy, Debug, PartialEq)]
pub struct FaceProjection {
    pub x0: f64,
    pub y0: f64,
}

// A vector is behind a face where its dot product with the centre is below this.
const BEHIND: f64 = 0.5;

// 7^(level/2) for the cell levels 0, 2, .., 14.
const POWERS: [f64; 8] = [1.0, 7.0, 49.0, 343.0, 2401.0, 16807.0, 117649.0, 823543.0];

fn power(level: CellLevel) -> f64
    requires { level.0 ≤ 15 }
    ensures { result ≡ seven_to (level.0 / 2) }
{
    POWERS[(level.0 / 2) as usize]
}

impl FaceProjection {
    pub fn new(axes: FaceAxes, p: Vec3d) -> FaceProjection
        ensures { result ≡ projection_of axes p }
    {
        let FaceAxes { centre, u, v } = axes;
        let below = p.dot(centre);
        FaceProjection {
            x0: p.dot(u) / below,
            y0: p.dot(v) / below,
        }
    }

    // An even level scales the point; an odd one, a Class III level, also turns it.
    fn at_level(self, level: CellLevel) -> Vec2d
        requires { level.0 ≤ 15 }
        ensures { result ≡ at_level level.0 self }
    {
        let scale = power(level);
        if level.0 % 2 == 0 {
            return Vec2d::new(self.x0 * scale, self.y0 * scale);
        }
        let x = 2.5 * self.x0 + Vec2d::SIN60 * self.y0;
        let y = 2.5 * self.y0 - Vec2d::SIN60 * self.x0;
        Vec2d::new(scale * x, scale * y)
    }
}

// The plane point on a face, unless the vector is behind it. Public for `locate`, which has tested frame, level and vector.
pub fn project(axes: FaceAxes, level: CellLevel, p: Vec3d) -> Result<Vec2d, Refusal>
    requires { level.0 ≤ 15 }
    ensures { result ≡ projected_of axes level.0 p }
{
    if p.dot(axes.centre) < BEHIND {
        return Err(Refusal::Behind);
    }
    Ok(FaceProjection::new(axes, p).at_level(level))
}

// What stands in the order of the numbers before the vector is looked at.
fn verdict_before(frame: &[f64], face: u32, level: CellLevel) -> Result<(), Refusal>
    ensures { result ≡ first (before_reasons frame.now face level.0) }
{
    if vec3d::bad_frame(frame) {
        return Err(Refusal::BadFrame);
    }
    if Place::LAST_FACE < face {
        return Err(Refusal::BadFace);
    }
    level.verdict()
}

// The plane point of a unit vector on the named face at a cell level.
pub fn plane_point(frame: &[f64], face: u32, level: CellLevel, p: Vec3d) -> Result<Vec2d, Refusal>
    ensures { said_pointed result ≡ plane_reply frame.now face level.0 p }
{
    verdict_before(frame, face, level)?;
    p.verdict()?;
    project(vec3d::face_at(frame, face), level, p)
}
