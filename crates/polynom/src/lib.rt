// The polynomial x^n + a[0]x^(n-1) + .. + a[n-1] over lent coefficients: its value, its derivative, and evaluation with a check.

#![tactic(auto)]

ghost use Rattle.std.specs.Prelude.{◌≡◌, ◌<◌, ◌+◌, length, drop};
ghost use Rattle.polynom.specs.Polynom.{sums, value, value_and_derivative, sample_if_finite, evaluated, both_if_finite, evaluated_both, newton_point};
ghost use Rattle.polynom.specs.Terms.{Passed};

use numerical::Sample;

// The sum so far, and the next power of x.
#[derive(Clone, Copy)]
pub struct Sum {
    pub result: f64,
    pub xn: f64,
}

// The sum of the coefficients from `left` on, an even number.
#[derive(Clone, Copy)]
pub struct Summed {
    pub sum: Sum,
    pub left: usize,
}

#[derive(Clone, Copy)]
pub struct ValueAndDerivative {
    pub value: Sample,
    pub derivative: f64,
}

impl ValueAndDerivative {
    // Where the tangent crosses zero.
    pub fn newton_point(self) -> f64
        ensures { result ≡ newton_point self }
    {
        self.value.x - self.value.y / self.derivative
    }
}

// The sum of the coefficients from i on, with that of those after i at hand.
fn one_more(a: &[f64], x: f64, i: usize, after: Sum) -> Sum
    requires { (i < length a.now) × (sums (drop (1 + i) a.now) x ≡ after) }
    ensures { sums (drop i a.now) x ≡ result }
{
    let c = a[i];
    Sum {
        result: after.result + c * after.xn,
        xn: after.xn * x,
    }
}

// Two terms at a time, which is faster: the later one first.
fn two_more(a: &[f64], x: f64, i: usize, after: Sum) -> Sum
    requires { (1 + i < length a.now) × (sums (drop (2 + i) a.now) x ≡ after) }
    ensures { sums (drop i a.now) x ≡ result }
{
    one_more(a, x, i, one_more(a, x, i + 1, after))
}

// The last coefficient or the last two, so that an even number is left. They stand before the loop, where the compiler drops what 1.0 multiplies.
fn begun(a: &[f64], x: f64) -> Summed
    ensures { Passed a.now x result }
{
    let none = Sum {
        result: 0.0,
        xn: 1.0,
    };
    let n = a.len();
    if n % 2 == 1 {
        Summed {
            sum: one_more(a, x, n - 1, none),
            left: n - 1,
        }
    } else if n > 0 {
        Summed {
            sum: two_more(a, x, n - 2, none),
            left: n - 2,
        }
    } else {
        Summed { sum: none, left: 0 }
    }
}

// The value at x, summed from the last coefficient to the first.
pub fn value(a: &[f64], x: f64) -> f64
    ensures { result ≡ value a.now x }
{
    let first = begun(a, x);
    let mut sum = first.sum;
    let mut left = first.left;
    // An index by hand: with `for pair in (0..left / 2).rev()` the compiler loads an address back from the stack in each turn.
    while left > 1 {
        left -= 2;
        sum = two_more(a, x, left, sum);
    }
    sum.result + sum.xn
}

// The value, with the derivative beside it, a term at a time and the first before the loop. The next power is begun before this one is used up, which is faster.
pub fn value_and_derivative(a: &[f64], x: f64) -> ValueAndDerivative
    ensures { result ≡ value_and_derivative a.now x }
{
    let Some((last, front)) = a.split_last() else {
        return ValueAndDerivative {
            value: Sample { x, y: 0.0 + 1.0 },
            derivative: 0.0 + 0.0 * 0.0,
        };
    };
    let mut derivative = 0.0 + *last * 0.0 * 0.0;
    let mut value = 0.0 + *last * 1.0;
    let mut xn1 = 1.0;
    let mut xn = 1.0 * x;
    let mut n = 0.0 + 1.0;
    for c in front.iter().rev() {
        derivative = derivative + *c * n * xn1;
        let next = xn * x;
        value = value + *c * xn;
        xn1 = xn;
        xn = next;
        n = n + 1.0;
    }
    ValueAndDerivative {
        value: Sample { x, y: value + xn },
        derivative: derivative + n * xn1,
    }
}

// The sample of a point and its value, if that is finite.
fn sample_if_finite(x: f64, y: f64) -> Option<Sample>
    ensures { result ≡ sample_if_finite x y }
{
    if doubles::is_finite(y) {
        Some(Sample { x, y })
    } else {
        None
    }
}

// The sample at x, if its value is finite.
pub fn evaluate(a: &[f64], x: f64) -> Option<Sample>
    ensures { result ≡ evaluated a.now x }
{
    sample_if_finite(x, value(a, x))
}

// What was worked out together is checked together.
fn both_if_finite(v: ValueAndDerivative) -> Option<ValueAndDerivative>
    ensures { result ≡ both_if_finite v }
{
    if doubles::is_finite(v.value.y) && doubles::is_finite(v.derivative) {
        Some(v)
    } else {
        None
    }
}

// The sample at x with its derivative, if both are finite.
pub fn evaluate_both(a: &[f64], x: f64) -> Option<ValueAndDerivative>
    ensures { result ≡ evaluated_both a.now x }
{
    both_if_finite(value_and_derivative(a, x))
}
