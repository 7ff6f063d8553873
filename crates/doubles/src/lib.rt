// Doubles: their bit patterns, which are finite, their size, signs and order, and a point pulled into a pair.

#![tactic(auto)]

ghost use Rattle.std.specs.Prelude.{◌≡◌};
ghost use Rattle.std.specs.Float.{binary64};
ghost use Rattle.std.specs.Float.Ieee.{of_bits, to_bits};
ghost use Rattle.std.specs.Float.Ieee.Scale.{finite};
ghost use Rattle.doubles.specs.Doubles.{absolute, above, below, same_sign, opposite_sign, order_of, of_order, clamp, beyond, pulled, lower, higher, outside};

// The double with these bits. The logic and from_bits know one NaN, so each of its patterns gives that one.
pub fn from_pattern(n: u64) -> f64
    ensures { result ≡ of_bits binary64 n }
{
    if n % 0x8000_0000_0000_0000 <= 0x7ff0_0000_0000_0000 {
        f64::from_bits(n)
    } else {
        f64::NAN
    }
}

// The bits of a double: of a NaN those with the sign clear and the highest digit set.
pub fn pattern(x: f64) -> u64
    ensures { result ≡ to_bits binary64 x }
{
    if x.is_nan() {
        return 0x7ff8_0000_0000_0000;
    }
    f64::to_bits(x)
}

// The largest finite double.
const LARGEST: f64 = f64::MAX;

// Whether x is finite, by "comparisons against the largest finite double". With a NaN both are false.
pub fn is_finite(x: f64) -> bool
    ensures { result ≡ finite x }
{
    (-LARGEST <= x) & (x <= LARGEST)
}

// The size of x. This, `clamp`, `lower` and `higher` are not std's: their definitions answer otherwise on zeros and NaN.
pub fn abs(x: f64) -> f64
    ensures { result ≡ absolute x }
{
    if x < 0.0 { -x } else { x }
}

pub fn is_above(x: f64) -> bool
    ensures { result ≡ above x }
{
    x > 0.0
}

pub fn is_below(x: f64) -> bool
    ensures { result ≡ below x }
{
    x < 0.0
}

// Whether both are above zero, or both below. No test is branched on: the signs are as good as random.
pub fn same_sign(a: f64, b: f64) -> bool
    ensures { result ≡ same_sign a b }
{
    (a > 0.0) & (b > 0.0) | (a < 0.0) & (b < 0.0)
}

// Whether one is above zero and the other below.
pub fn opposite_sign(a: f64, b: f64) -> bool
    ensures { result ≡ opposite_sign a b }
{
    (a > 0.0) & (b < 0.0) | (a < 0.0) & (b > 0.0)
}

// The order number: the low 63 bits, negated if the sign bit is set; 0 for a NaN.
pub fn order_of(x: f64) -> i64
    ensures { result ≡ order_of x }
{
    if x.is_nan() {
        return 0;
    }
    let bits = f64::to_bits(x);
    let size = (bits & 0x7fff_ffff_ffff_ffff) as i64;
    if bits >> 63 == 1 { -size } else { size }
}

// The finite double with the order number k, and a NaN where there is none: the definition gives a double for every k, so it is no Option.
pub fn of_order(k: i64) -> f64
    ensures { result ≡ of_order k }
{
    if k <= -0x7ff0_0000_0000_0000 {
        return f64::NAN;
    }
    if k >= 0x7ff0_0000_0000_0000 {
        return f64::NAN;
    }
    if k < 0 {
        let size = (0 - k) as u64;
        f64::from_bits(0x8000_0000_0000_0000 + size)
    } else {
        f64::from_bits(k as u64)
    }
}

// x, or the nearer end where x lies outside of low to high.
fn clamp(low: f64, high: f64, x: f64) -> f64
    ensures { result ≡ clamp low high x }
{
    if x < low {
        low
    } else if high < x {
        high
    } else {
        x
    }
}

// Whether x lies outside of low to high.
fn is_beyond(low: f64, high: f64, x: f64) -> bool
    ensures { result ≡ beyond low high x }
{
    if x < low { true } else { high < x }
}

// x, or the nearer end where x lies outside of the pair u, v, in either order.
pub fn pulled(u: f64, v: f64, x: f64) -> f64
    ensures { result ≡ pulled u v x }
{
    if u <= v {
        clamp(u, v, x)
    } else {
        clamp(v, u, x)
    }
}

// The lower of two numbers.
fn lower(u: f64, v: f64) -> f64
    ensures { result ≡ lower u v }
{
    if u < v { u } else { v }
}

// The higher of two numbers.
fn higher(u: f64, v: f64) -> f64
    ensures { result ≡ higher u v }
{
    if u < v { v } else { u }
}

// Whether x lies outside of the pair u, v, in either order. The order is not branched on: it is as good as random.
pub fn is_outside(u: f64, v: f64, x: f64) -> bool
    ensures { result ≡ outside u v x }
{
    is_beyond(lower(u, v), higher(u, v), x)
}
