// The square root of a double: the nearest double, worked out from its bits.
#![tactic(auto)]

ghost use Rattle.std.specs.Prelude.{◌≡◌, true, false, ◌+◌, ◌*◌, ◌^◌, ◌≤◌, ◌<◌};
ghost use Rattle.std.specs.Float.{binary64};
ghost use Rattle.std.specs.Float.Ieee.{of_bits, round};
ghost use Rattle.root.specs.Root.{IsRoot, whole_root, root_of, said_rooted, root_reply};
ghost use Rattle.root.specs.AsWorked.{NearRoot, Scaling, units_of_bits, Positive};

use reply::Refusal;

// The 53 or 54 digits that a root is worked out from, as a whole number m.
#[derive(Clone, Copy)]
struct Digits {
    pub m: u64,
    ghost least: { 2 ^ 52 ≤ m },
    ghost most: { m + 1 < 2 ^ 54 },
}

// A number m · 2^power.
#[derive(Clone, Copy)]
struct Scaled {
    pub digits: Digits,
    pub power: u64,
}

// A root's 53 digits in two parts: high · 2^26 + low.
#[derive(Clone, Copy)]
struct Halves {
    pub high: u64,
    pub low: u64,
    ghost high_few: { high < 2 ^ 27 },
    ghost low_few: { low < 2 ^ 27 },
}

// The whole number nearest to an x from 0 up to 2^27, read off the digits of x + 2^52. Of another x nothing is claimed but how large the answer is.
fn nearest_whole(x: f64) -> u64
    ensures { result < 2 ^ 27 }
{
    let sum = x + 4503599627370496.0;
    if sum != sum {
        return 0;
    }
    sum.to_bits() % 0x800_0000
}

// A guess at 1 over the root of a t from 1 up to 2: a polynomial, and a step of Newton's method.
fn inverse_root(t: f64) -> f64 {
    let s = t * t;
    let a = 2.4636987480767566 - 3.451224306086381 * t;
    let b = 3.5894908802690505 - 2.346807326230506 * t;
    let c = 0.9306151961901463 - 0.20506657674364465 * t + 0.019291252572845716 * s;
    let y = (a + b * s) + c * (s * s);
    y * (1.5 - 0.5 * t * y * y)
}

impl Halves {
    // The number that the two make.
    fn joined(self) -> u64
        ensures { result ≡ self.high * 2 ^ 26 + self.low }
    {
        self.high * 0x400_0000 + self.low
    }

    // Whether they are the root of m · 2^52, rounded. Its square has 106 digits, so it is compared by what the first half's square leaves of m; 2^57
    // stands on both sides, so that no difference falls below zero.
    fn is_root(self, of: Digits) -> bool
        ensures { result ≡ true → NearRoot (of.m * 2 ^ 52) (self.high * 2 ^ 26 + self.low) }
    {
        let Halves { high, low } = self;
        let m = of.m;
        let square = high * high;
        if m < square {
            return false;
        }
        let left = m - square;
        if 0x1_0000_0000 <= left {
            return false;
        }
        let given = left * 0x200_0000 + 0x4000_0000;
        let taken = high * low;
        if given < taken {
            return false;
        }
        let more = given - taken;
        if 0x8000_0000 <= more {
            return false;
        }
        let root = self.joined();
        let rest = low * low + 0x200_0000_0000_0000;
        let first = more * 0x800_0000;
        (rest < first + root) & (first <= rest + root)
    }
}

impl Digits {
    // A guess at the root of m. Its digits are made those of a t from 1 up to 2, and what is left, 2^52 or 2^53, has the root 2^26 or 2^26.5.
    fn guess(self) -> f64 {
        let m = self.m;
        if m < 0x20_0000_0000_0000 {
            let low = f64::from_bits(m + 0x3fe0_0000_0000_0000);
            return inverse_root(low) * low * 67108864.0;
        }
        let high = f64::from_bits(m / 2 + 0x3fe0_0000_0000_0000);
        inverse_root(high) * high * 94906265.62425156
    }

    // The root of m · 2^52 as the guess has it: the first half of its digits, and the other half by one division of what the first leaves.
    // Nothing is claimed of them but how large they are: `Halves::is_root` tells whether they are right.
    fn guessed(self) -> Halves {
        let near = self.guess();
        let high = nearest_whole(near - 0.5);
        let square = high * high;
        if self.m < square {
            return Halves { high, low: 0 };
        }
        let left = ((self.m - square) % 0x1_0000_0000) as u32;
        let rest = (left as f64) / ((high as u32) as f64 + near);
        Halves {
            high,
            low: nearest_whole(rest * 67108864.0),
        }
    }

    // The root of m, cut to a whole number: from anywhere to where it belongs.
    fn small_root(self, from: u64) -> u64
        requires { from < 2 ^ 27 }
        ensures { IsRoot self.m result }
    {
        let mut r = from;
        while self.m < r * r {
            r -= 1;
        }
        while (r + 1) * (r + 1) <= self.m {
            r += 1;
        }
        r
    }

    // The root of m · 2^54, cut to a whole number: 27 digits, and 27 more by one division.
    fn whole_root(self, from: u64) -> u64
        requires { from < 2 ^ 27 }
        ensures { IsRoot (self.m * 2 ^ 54) result }
    {
        let r = self.small_root(from);
        let n = (self.m - r * r) * 0x800_0000;
        let q = n / (r * 2);
        let u = n % (r * 2);
        let s = r * 0x800_0000 + q;
        if u * 0x800_0000 < q * q { s - 1 } else { s }
    }

    // The root of m · 2^52, rounded to a whole number: 53 digits. The guess is right but for some forty numbers in a million.
    fn root(self) -> u64
        ensures { NearRoot (self.m * 2 ^ 52) result }
    {
        let halves = self.guessed();
        if halves.is_root(self) {
            return halves.joined();
        }
        (self.whole_root(halves.high) + 1) / 2
    }
}

// m · 2^p with an even power.
fn even(m: u64, p: u64) -> Scaled
    requires { (2 ^ 52 ≤ m) × (m < 2 ^ 53) × (1021 ≤ p) × (p ≤ 3120) }
    ensures { Scaling (m * 2 ^ p) result.digits.m result.power }
{
    if p % 2 == 0 {
        Scaled {
            digits: Digits { m },
            power: p,
        }
    } else {
        Scaled {
            digits: Digits { m: m * 2 },
            power: p - 1,
        }
    }
}

// The number whose root is asked, in units: 2^1074 times the units of the pattern b.
fn radicand(b: u64) -> Scaled
    requires { (0 < b) × (b < 2047 * 2 ^ 52) }
    ensures { Scaling (units_of_bits b * 2 ^ 1074) result.digits.m result.power }
{
    if b < 0x10_0000_0000_0000 {
        let z = b.leading_zeros() - 11;
        even(b << z, 1074 - u64::from(z))
    } else {
        even(
            b % 0x10_0000_0000_0000 + 0x10_0000_0000_0000,
            b / 0x10_0000_0000_0000 + 1073,
        )
    }
}

// The root of the value of the pattern b, as a pattern.
fn root_bits(b: u64) -> u64
    requires { (0 < b) × (b < 2047 * 2 ^ 52) }
    ensures value { of_bits binary64 result ≡ round binary64 false (whole_root (units_of_bits b * 2 ^ 1074)) (2 ^ 1074) }
    ensures bounded { result < 2047 * 2 ^ 52 }
{
    let s = radicand(b);
    (s.power - 52) / 2 * 0x10_0000_0000_0000 + s.digits.root()
}

// The root of a finite number above zero. Public for the globe, which has seen that its number is one.
pub fn positive_root(x: f64) -> f64
    requires { Positive x }
    ensures { result ≡ root_of x }
{
    f64::from_bits(root_bits(x.to_bits()))
}

// The root of a number. Minus zero stays minus zero.
pub fn square_root(x: f64) -> Result<f64, Refusal>
    ensures { said_rooted result ≡ root_reply x }
{
    if x == 0.0 {
        return Ok(x);
    }
    if (0.0 < x) & double::is_finite(x) {
        return Ok(positive_root(x));
    }
    Err(Refusal::BadNumber)
}
