// Cell levels and grid levels, `Resolution` and `ExtendedResolution` of the source, and the sizes of a face's grid.
#![tactic(auto)]

ghost use Rattle.std.specs.Prelude.{◌≡◌, ◌≤◌};
ghost use Rattle.level.specs.Levels.{cell_verdict, grid_verdict, unit_of, said_raised, raise_reply, said_gridded, grid_reply};

use reply::Refusal;

// A cell level is 0..15; an odd one is Class III. Any number may stand here: an entry refuses a bad one.
#[derive(Clone, Copy, Debug, PartialEq, Eq)]
pub struct CellLevel(pub u32);

// A grid level is even, 0..16. Any number may stand here: an entry refuses a bad one.
#[derive(Clone, Copy, Debug, PartialEq, Eq)]
pub struct GridLevel(pub u32);

// A face's grid: its unit scale, the limit m of the coordinate sum, and whether it is a substrate grid.
#[derive(Clone, Copy, Debug, PartialEq, Eq)]
pub struct Grid {
    pub unit: u32,
    pub limit: u32,
    pub substrate: bool,
}

// 7^(level/2) for the grid levels 0, 2, .., 16.
const UNITS: [u32; 9] = [1, 7, 49, 343, 2401, 16807, 117649, 823543, 5764801];

impl CellLevel {
    pub const FINEST: u32 = 15;

    pub fn verdict(self) -> Result<(), Refusal>
        ensures { result ≡ cell_verdict self.0 }
    {
        if CellLevel::FINEST < self.0 {
            return Err(Refusal::BadLevel);
        }
        Ok(())
    }

    // The one way from a cell level to a grid level: an odd level is raised by one.
    pub fn raise(self) -> Result<GridLevel, Refusal>
        ensures { said_raised result ≡ raise_reply self.0 }
    {
        self.verdict()?;
        Ok(GridLevel(self.0 + self.0 % 2))
    }
}

impl GridLevel {
    pub const FINEST: u32 = 16;

    pub fn verdict(self) -> Result<(), Refusal>
        ensures { result ≡ grid_verdict self.0 }
    {
        if (self.0 % 2 == 1) | (GridLevel::FINEST < self.0) {
            return Err(Refusal::BadLevel);
        }
        Ok(())
    }

    fn unit(self, substrate: bool) -> u32
        requires { self.0 ≤ 16 }
        ensures { result ≡ unit_of self.0 substrate }
    {
        let unit = UNITS[(self.0 / 2) as usize];
        if substrate { 3 * unit } else { unit }
    }

    // The grid of a face at this level, plain or substrate.
    pub fn grid(self, substrate: bool) -> Result<Grid, Refusal>
        ensures { said_gridded result ≡ grid_reply self.0 substrate }
    {
        self.verdict()?;
        let unit = self.unit(substrate);
        Ok(Grid {
            unit,
            limit: 2 * unit,
            substrate,
        })
    }
}
