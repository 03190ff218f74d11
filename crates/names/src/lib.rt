// The names of a corner on a substrate grid: a point on an edge has one on each side, a face corner five.
#![tactic(auto)]

ghost use Rattle.std.specs.Prelude.{◌≡◌, true};
ghost use Rattle.level.specs.Levels.{Sound, grid_of};
ghost use Rattle.coordijk.specs.Coordinates.{not_reduced};
ghost use Rattle.faceijk.specs.Places.{coord_of, on_grid_of};
ghost use Rattle.faceijk.specs.Entries.{said_moved};
ghost use Rattle.names.specs.Row.{at_limit, edge_at, next_name, others, lower, first_of, same_of};
ghost use Rattle.names.specs.Entries.{Inside, out_of, inside_verdict, names_verdict, first_reply, said_same, same_reply};

use faceijk::Place;
use level::{Grid, GridLevel};
use reply::Refusal;
use std::cmp;

// Whether the point lies on an edge.
fn at_limit(p: Place, grid: Grid) -> bool
    ensures { result ≡ at_limit grid p }
{
    p.sum() == u64::from(grid.limit)
}

// The edge over which the next name lies: each has its first corner and not its last, so that at a corner the names go round it.
fn edge_at(p: Place) -> u32
    ensures { result ≡ edge_at p }
{
    if p.k == 0 {
        if p.i == 0 { 3 } else { 1 }
    } else {
        if p.j == 0 { 2 } else { 3 }
    }
}

// An inner point is its own next name.
fn next_name(p: Place, grid: Grid) -> Place
    requires { Inside grid p × Sound grid }
    ensures { result ≡ next_name grid p }
{
    if at_limit(p, grid) {
        return p.over(edge_at(p), grid);
    }
    p
}

// How many names a point has beside its own.
fn others_of(p: Place, grid: Grid) -> u32
    ensures { result ≡ others grid p }
{
    if at_limit(p, grid) {
        if (p.i == grid.limit) | ((p.j == grid.limit) | (p.k == grid.limit)) {
            return 4;
        }
        return 1;
    }
    0
}

fn lower_of(a: Place, b: Place) -> Place
    ensures { result ≡ lower a b }
{
    cmp::min_by_key(a, b, |p| p.face)
}

// Of an inner point its own name, of an edge point the lower of two, of a face corner the lowest of five.
fn first_of(p: Place, grid: Grid) -> Place
    requires { Inside grid p × Sound grid }
    ensures { result ≡ first_of grid p }
{
    let others = others_of(p, grid);
    let mut at = p;
    let mut best = p;
    for _ in 0..others {
        at = next_name(at, grid);
        best = lower_of(best, at);
    }
    best
}

// Whether q is one of p's names. One row is walked: two first names would be two.
fn are_same(p: Place, q: Place, grid: Grid) -> bool
    requires { Inside grid p × Sound grid }
    ensures { result ≡ same_of grid p q }
{
    let others = others_of(p, grid);
    let mut name = p;
    let mut same = false;
    for _ in 0..others {
        same |= name == q;
        name = next_name(name, grid);
    }
    same | (name == q)
}

fn is_unreduced(p: Place) -> bool
    ensures { result ≡ not_reduced (coord_of p) }
{
    p.coord().verdict().is_err()
}

fn is_beyond(p: Place, grid: Grid) -> bool
    ensures { result ≡ out_of grid p }
{
    u64::from(grid.limit) < p.sum()
}

// The tests of coordinates and sums, which follow those of faces and level.
fn inside(p: Place, q: Place, grid: Grid) -> Result<Grid, Refusal>
    ensures { result ≡ on_grid_of (inside_verdict p q grid) grid }
{
    let unreduced = is_unreduced(p) | is_unreduced(q);
    let beyond = is_beyond(p, grid) | is_beyond(q, grid);
    if unreduced {
        return Err(Refusal::NotReduced);
    }
    if beyond {
        return Err(Refusal::OutOfFace);
    }
    Ok(grid)
}

// The tests of two corners on one substrate grid, in the order of their numbers.
fn on_grid(p: Place, q: Place, level: GridLevel) -> Result<Grid, Refusal>
    ensures { result ≡ on_grid_of (names_verdict p q level.0) (grid_of level.0 true) }
{
    if (Place::LAST_FACE < p.face) | (Place::LAST_FACE < q.face) {
        return Err(Refusal::BadFace);
    }
    let grid = level.grid(true)?;
    inside(p, q, grid)
}

// The first name of a corner: of all its names the one with the lowest face.
pub fn first_name(p: Place, level: GridLevel) -> Result<Place, Refusal>
    ensures { said_moved result ≡ first_reply p level.0 }
{
    let grid = on_grid(p, p, level)?;
    Ok(first_of(p, grid))
}

// Whether two corners are the same: one name can be reached from the other by steps over edges on which the point lies.
pub fn same_corner(p: Place, q: Place, level: GridLevel) -> Result<bool, Refusal>
    ensures { said_same result ≡ same_reply p q level.0 }
{
    let grid = on_grid(p, q, level)?;
    Ok(are_same(p, q, grid))
}
