// The questions of the desk tool as calls of the C face: each with its arguments from the question's fields.
#![tactic(auto)]

ghost use Rattle.std.specs.Prelude.{◌≡◌, true, []};
ghost use Rattle.reply.specs.Replies.{zeros, verdict_number};
ghost use Rattle.vec2d.specs.Meeting.{line_at, meet_reply};
ghost use Rattle.vec3d.specs.Frame.{bad_frame};
ghost use Rattle.globe.specs.Boundaries.{sides_of, globe_reply};
ghost use Rattle.lent.specs.Lent.{Gives, bits_of};
ghost use Rattle.lent_globe.specs.Globes.{GivesGlobe};
ghost use Rattle.ask_read.specs.declared.Asked.TheVariants.{Settle};
ghost use Rattle.ask_call.specs.Replies.{reply_to, on_grid, number_at, place_at, Holds};

use ask_read::{Asked, Question};
use faceijk::Place;
use globe::Outline;
use reply::Refusal;

// Asks where two lines meet, which the first eight fields name.
fn call_meet(d: [f64; 9], doubles: &mut [f64]) -> Result<(), Refusal>
    ensures { Gives 2 (meet_reply (line_at d 0) (line_at d 4)) (bits_of doubles.old) (bits_of doubles.new) (verdict_number result) }
{
    lent_grid::meet(&d[..8], doubles)
}

// Asks for a boundary on the sphere, its fields FACE LEVEL I J K START LENGTH.
fn call_globe(
    frame: &[f64],
    outline: Outline,
    n: [u32; 9],
    words: &mut [u32],
    doubles: &mut [f64],
) -> Result<(), Refusal>
    ensures { GivesGlobe (bad_frame frame.now) (globe_reply (sides_of outline) frame.now (place_at n 0 2) (number_at n 1) (number_at n 5) (number_at n 6)) words.old words.new (bits_of doubles.old) (bits_of doubles.new) (verdict_number result) }
{
    let centre = Place::new(n[0], n[2], n[3], n[4]);
    lent_globe::border(frame, outline, centre, n[1], n[5], n[6], words, doubles)
}

// Asks a question that needs neither frame nor cell: those of plane points, places and corners.
fn call_grid(q: Question, words: &mut [u32], doubles: &mut [f64]) -> Result<(), Refusal>
    requires { (words.old ≡ zeros 25) × (bits_of doubles.old ≡ zeros 36) }
    ensures { on_grid q.asked ≡ true → Holds q.asked (reply_to [] q) (verdict_number result) words.new (bits_of doubles.new) }
{
    let asked = q.asked;
    let n = q.numbers;
    let d = q.doubles;
    match asked {
        Asked::Round => lent_grid::round(d[0], d[1], words, doubles),
        Asked::Centre => lent_grid::centre(n[0], n[1], n[2], doubles),
        Asked::Meet => call_meet(d, doubles),
        Asked::Turn => lent_grid::turn(n[0], n[1], n[2], n[3], n[4] == 1, words),
        Asked::Step => lent_grid::step(n[0], n[3], n[4], n[5], n[1], n[2] == 1, n[6], words),
        Asked::Cross => lent_grid::cross(n[0], n[3], n[4], n[5], n[1], n[2] == 1, n[6] == 1, words),
        Asked::Direction => lent_grid::direction(n[0], n[1], words),
        Asked::Same => {
            lent_grid::same_corner(n[1], n[2], n[3], n[4], n[5], n[6], n[7], n[8], n[0], words)
        }
        Asked::First => lent_grid::first_name(n[0], n[2], n[3], n[4], n[1], words),
        _ => Ok(()),
    }
}

// Asks what a question asks, settling apart, whose number of steps has 64 bits. Public for answers, which lend clear slices.
pub fn call(
    frame: &[f64],
    q: Question,
    words: &mut [u32],
    doubles: &mut [f64],
) -> Result<(), Refusal>
    requires { (words.old ≡ zeros 25) × (bits_of doubles.old ≡ zeros 36) }
    ensures { (q.asked ≡ Settle → ⊥) → Holds q.asked (reply_to frame.now q) (verdict_number result) words.new (bits_of doubles.new) }
{
    let asked = q.asked;
    let n = q.numbers;
    let d = q.doubles;
    match asked {
        Asked::Settle => Ok(()),
        Asked::Nearest => lent_places::nearest(frame, d[0], d[1], d[2], words, doubles),
        Asked::Place => lent_places::place(frame, d[1], d[2], d[3], n[0], words, doubles),
        Asked::Corners => lent_borders::corners(n[0], n[2], n[3], n[4], n[1], words),
        Asked::Hexagon => {
            lent_borders::hexagon(n[0], n[2], n[3], n[4], n[1], n[5], n[6], words, doubles)
        }
        Asked::Pentagon => {
            lent_borders::pentagon(n[0], n[2], n[3], n[4], n[1], n[5], n[6], words, doubles)
        }
        Asked::Root => lent_globe::root(d[0], doubles),
        Asked::Sphere => lent_globe::sphere(frame, n[0], n[1], d[2], d[3], doubles),
        Asked::Globe6 => call_globe(frame, Outline::Hexagon, n, words, doubles),
        Asked::Globe5 => call_globe(frame, Outline::Pentagon, n, words, doubles),
        Asked::Help => Ok(()),
        Asked::Unreadable => Err(Refusal::BadLine),
        _ => call_grid(q, words, doubles),
    }
}
