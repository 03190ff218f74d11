// Coordinates on a face's grid, `CoordIJK` of the source: reducing, and the five maps of document 01's table.
#![tactic(auto)]

ghost use Rattle.std.specs.Prelude.{◌≡◌, ◌+◌, ◌*◌, ◌≤◌, max};
ghost use Rattle.coordijk.specs.Coordinates.{coord, least, reduced, Taken, verdict_of};
ghost use Rattle.coordijk.specs.Maps.{map_of, said_mapped, map_reply};

use reply::Refusal;

#[derive(Clone, Copy, Debug, PartialEq, Eq)]
pub struct CoordIJK {
    pub i: u32,
    pub j: u32,
    pub k: u32,
}

// The maps of document 01's table, a row each.
#[derive(Clone, Copy, Debug, PartialEq, Eq)]
pub enum GridMap {
    SixthTurnCcw,
    SixthTurnCw,
    Aperture3Ccw,
    Aperture3Cw,
    Aperture7Cw,
}

fn least_of(i: u32, j: u32, k: u32) -> u32
    ensures { result ≡ least i j k }
{
    i.min(j.min(k))
}

fn largest_of(i: u32, j: u32, k: u32) -> u32
    ensures { result ≡ max i (max j k) }
{
    i.max(j.max(k))
}

fn product_plus(times: u32, a: u32, b: u32) -> u32
    requires { (times ≤ 3) × (a ≤ 67108864) × (b ≤ 67108864) }
    ensures { result ≡ times * a + b }
{
    times * a + b
}

impl CoordIJK {
    // The largest coordinate that is taken, 2^26.
    pub const LARGEST: u32 = 67108864;

    pub fn new(i: u32, j: u32, k: u32) -> CoordIJK
        ensures { result ≡ record { i = i; j = j; k = k } }
    {
        CoordIJK { i, j, k }
    }

    // The least coordinate taken from all three; any triple is taken.
    pub fn reduce(self) -> CoordIJK
        ensures { result ≡ reduced self.i self.j self.k }
    {
        let least = least_of(self.i, self.j, self.k);
        CoordIJK {
            i: self.i - least,
            j: self.j - least,
            k: self.k - least,
        }
    }

    // Whether the triple is taken: reduced, and no coordinate above 2^26.
    pub fn verdict(self) -> Result<(), Refusal>
        ensures { result ≡ verdict_of self }
    {
        if (0 < least_of(self.i, self.j, self.k))
            | (CoordIJK::LARGEST < largest_of(self.i, self.j, self.k))
        {
            return Err(Refusal::NotReduced);
        }
        Ok(())
    }

    // So many times self, and i, j, k once, added up and reduced: every row of the table has this form.
    fn times_plus(self, times: u32, i: u32, j: u32, k: u32) -> CoordIJK
        requires { Taken self × Taken (coord i j k) × (times ≤ 3) }
        ensures { result ≡ reduced (times * self.i + i) (times * self.j + j) (times * self.k + k) }
    {
        CoordIJK {
            i: product_plus(times, self.i, i),
            j: product_plus(times, self.j, j),
            k: product_plus(times, self.k, k),
        }
        .reduce()
    }

    fn sent(self, map: GridMap) -> CoordIJK
        requires { Taken self }
        ensures { result ≡ map_of map self }
    {
        let CoordIJK { i, j, k } = self;
        match map {
            GridMap::SixthTurnCcw => self.times_plus(1, k, i, j),
            GridMap::SixthTurnCw => self.times_plus(1, j, k, i),
            GridMap::Aperture3Ccw => self.times_plus(2, j, k, i),
            GridMap::Aperture3Cw => self.times_plus(2, k, i, j),
            GridMap::Aperture7Cw => self.times_plus(3, k, i, j),
        }
    }

    pub fn map(self, map: GridMap) -> Result<CoordIJK, Refusal>
        ensures { said_mapped result ≡ map_reply map self }
    {
        self.verdict()?;
        Ok(self.sent(map))
    }
}
