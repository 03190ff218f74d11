// How far a point was from the nearest border of its hexagon, by the leftovers of its rounding alone.
#![tactic(auto)]

ghost use Rattle.std.specs.Prelude.{◌≡◌, ◌*◌, ◌^◌, ◌≤◌};
ghost use Rattle.double.specs.Sizes.{Upto};
ghost use Rattle.margin.specs.Margins.{is_leftover, parts_of, gap_of, step_of, reach_in, said_margin, margin_reply};

use reply::Refusal;
use vec2d::{Leftovers, Steps};

// Lengths are counted in 2^51sts of the way from one centre to the next. The longest way has at most three times as many, which a double holds exactly.
pub const UNIT: u64 = 2251799813685248;

fn is_leftover(r: f64) -> bool
    ensures { result ≡ is_leftover r }
{
    (0.0 <= r) & (r < 1.0)
}

// How many whole 2^51sts a leftover has.
fn parts(r: f64) -> u64
    requires { Upto 1 r }
    ensures counts { result ≡ parts_of r }
    ensures bounded { result ≤ 2 ^ 51 }
{
    std::num::truncating_f64_to_u64(r * 2251799813685248.0)
}

fn gap(a: u64, b: u64) -> u64
    ensures { result ≡ gap_of a b }
{
    a.abs_diff(b)
}

// How far off a centre is that lies a step up, or none.
fn step(up: bool) -> u64
    ensures steps { result ≡ step_of (2 ^ 51) up }
    ensures bounded { result ≤ 2 ^ 51 }
{
    if up { UNIT } else { 0 }
}

// The longest of the ways towards the six neighbours, each twice.
fn reach(m: u64, n: u64, s: Steps) -> u64
    requires { (m ≤ 2 ^ 51) × (n ≤ 2 ^ 51) }
    ensures reaches { result ≡ reach_in (2 ^ 51) m n s }
    ensures bounded { result ≤ 3 * 2 ^ 51 }
{
    let i = step(s.i);
    let j = step(s.j);
    let along_i = gap(2 * m + j, n + 2 * i);
    let along_j = gap(2 * n + i, m + 2 * j);
    let along_ij = gap(m + n, i + j);
    along_i.max(along_j.max(along_ij))
}

// The margin of a point with these leftovers.
pub fn margin(left: Leftovers) -> Result<f64, Refusal>
    ensures { said_margin result ≡ margin_reply left }
{
    if is_leftover(left.r1) & is_leftover(left.r2) {
        let r1 = double::magnitude(left.r1);
        let r2 = double::magnitude(left.r2);
        let far = reach(parts(r1), parts(r2), vec2d::chosen(r1, r2));
        return Ok((2251799813685248.0 - (far as f64)) / 4503599627370496.0);
    }
    Err(Refusal::BadRange)
}
