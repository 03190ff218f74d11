// What the rest asks of a double: its size, whether it is finite, its whole part with what is left over, and a product with a sum.
#![tactic(auto)]

ghost use Rattle.std.specs.Prelude.{◌≡◌, true, ◌-◌, ◌^◌, pos};
ghost use Rattle.std.specs.Float.{binary64};
ghost use Rattle.std.specs.Float.Ieee.{of_int};
ghost use Rattle.double.specs.Double.{finite, size_of, whole_of, parts_of, mul_add_of};
ghost use Rattle.double.specs.Sizes.{Upto};

// The whole part of a number from 0 up, and what is left of the number without it.
#[derive(Clone, Copy, Debug, PartialEq)]
pub struct Parts {
    pub whole: u32,
    pub left: f64,
}

// |x|: the sign bit is cleared, also a zero's. A NaN stays a NaN.
pub fn size(x: f64) -> f64
    ensures { result ≡ size_of x }
{
    x.abs()
}

// |x| of a number that is known to be finite: nothing is asked about a NaN. Public for the rounding of plane points.
pub fn magnitude(x: f64) -> f64
    requires { finite x ≡ true }
    ensures { result ≡ size_of x }
{
    f64::from_bits(x.to_bits() % 0x8000_0000_0000_0000)
}

// Whether x is neither a NaN nor an infinity.
pub fn is_finite(x: f64) -> bool
    ensures { result ≡ finite x }
{
    x.is_finite()
}

// The whole part as a double. From 2^52 on every double is whole, so adding 2^52 rounds x to the nearest whole number, and taking 2^52 off again is exact.
// Where that number lies above x, the whole part is one less.
fn floor(x: f64) -> f64
    requires { Upto (2 ^ 32 - 1) x }
    ensures { result ≡ of_int binary64 (pos (whole_of x)) }
{
    let near = (x + 4503599627370496.0) - 4503599627370496.0;
    if x < near { near - 1.0 } else { near }
}

// Whole part and leftover together. Public for the rounding of plane points, which tests the size before.
pub fn split(x: f64) -> Parts
    requires { Upto (2 ^ 32 - 1) x }
    ensures { result ≡ parts_of x }
{
    let whole = floor(x);
    Parts {
        whole: whole as u32,
        left: x - whole,
    }
}

// The source's `mul_add`, here a product and a sum, each rounded.
pub fn mul_add(a: f64, b: f64, c: f64) -> f64
    ensures { result ≡ mul_add_of a b c }
{
    a * b + c
}
