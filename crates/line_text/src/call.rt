// A line taken apart: METHOD COUNT A0 .. START [START] VALUE_TOLERANCE POINT_TOLERANCE LIMIT.
ghost use Rattle.std.specs.Prelude.{◌≡◌, ◌+◌, ◌≤◌, length};
ghost use Rattle.line_text.specs.Calls.{Filled, method_number, ReadAs, filled_with, count_fills, line_fills, doubles, with_limit, with_doubles, with_count, asked_of};

use crate::{digits, fields};
use roots::Method;
use simple_convergency::Tolerances;

// Why a line is not a call.
#[derive(Clone, Copy, PartialEq, Eq, Debug)]
pub enum Fault {
    Empty,
    Method,
    Count,
    Number,
    Limit,
    Trailing,
}

// A call, but for its coefficients: those are the first `count` doubles of an array beside it, which the caller lends, since there
// is no heap. A record's call has a copy of them, and its kind.
#[derive(Clone, Copy)]
pub struct Call {
    pub method: Method,
    pub count: usize,
    pub tolerances: Tolerances,
    pub limit: u64,
}

// Reads k fields from `at` on as doubles, into a, and tells where they end if each is one.
pub fn read_doubles(s: &[u8], at: usize, k: usize, a: &mut [f64]) -> Option<usize>
    requires { (at ≤ length s.now) × (k ≤ length a.old) }
    ensures { Filled s.now at k a.old a.new result }
{
    let mut p = at;
    for x in a[..k].iter_mut() {
        let f = fields::next(s, p);
        let n = digits::word(&s[f.from..f.to])?;
        *x = doubles::from_pattern(n);
        p = f.to;
    }
    Some(p)
}

// The method's number, if the field is one. A number on its way, as `Method::start_count` and `Method::numbered` take it.
#[tactic(auto, using(std::proofs::lemmas::Bool::Decides::nat_tests), unfolding(crate::specs::Calls::method_number))]
fn method_number(t: &[u8]) -> Option<u8>
    ensures { result ≡ method_number t.now }
{
    match t {
        [b @ b'1'..=b'5'] => Some(*b - b'0'),
        _ => None,
    }
}

// The limit at the front of s, behind which nothing may follow; a holds the doubles.
#[tactic(auto, using(crate::specs::ReadingLaws::few_starts))]
fn with_limit(s: &[u8], m: u8, count: usize, a: &[f64]) -> Result<Call, Fault>
    requires { count + 4 ≤ length a.now }
    ensures { ReadAs (with_limit m count a.now s.now) a.now a.now result }
{
    let f = fields::next(s, 0);
    let limit = digits::decimal(&s[f.from..f.to]).ok_or(Fault::Limit)?;
    let g = fields::next(s, f.to);
    if g.from < g.to {
        return Err(Fault::Trailing);
    }
    let behind = count + Method::start_count(m);
    Ok(Call {
        method: Method::numbered(m, a[count], a[count + 1]),
        count,
        tolerances: Tolerances {
            value: a[behind],
            point: a[behind + 1],
        },
        limit,
    })
}

// The doubles at the front of s: the coefficients, the starts and the tolerances.
#[tactic(auto, using(crate::specs::ReadingLaws::few_starts))]
fn with_doubles(s: &[u8], m: u8, count: usize, a: &mut [f64]) -> Result<Call, Fault>
    requires { (count ≤ 40) × (44 ≤ length a.old) }
    ensures { ReadAs (with_doubles m count s.now) (filled_with (doubles m count) s.now a.old) a.new result }
{
    let k = count + Method::start_count(m) + 2;
    let p = read_doubles(s, 0, k, a).ok_or(Fault::Number)?;
    with_limit(&s[p..], m, count, a)
}

// The count at the front of s.
fn with_count(s: &[u8], m: u8, a: &mut [f64]) -> Result<Call, Fault>
    requires { 44 ≤ length a.old }
    ensures { ReadAs (with_count m s.now) (count_fills m s.now a.old) a.new result }
{
    let f = fields::next(s, 0);
    let count = digits::decimal(&s[f.from..f.to]).ok_or(Fault::Count)?;
    if 40 < count {
        return Err(Fault::Count);
    }
    with_doubles(&s[f.to..], m, count as usize, a)
}

// What the line asks for, with the coefficients in a, which holds up to 40 of them, two starts and two tolerances. It takes a slice
// of 44 or more, and so do its parts: an array of 44 would ask more of callers.
pub fn read(s: &[u8], a: &mut [f64]) -> Result<Call, Fault>
    requires { 44 ≤ length a.old }
    ensures { ReadAs (asked_of s.now) (line_fills s.now a.old) a.new result }
{
    let f = fields::next(s, 0);
    if f.from == f.to {
        return Err(Fault::Empty);
    }
    let m = method_number(&s[f.from..f.to]).ok_or(Fault::Method)?;
    with_count(&s[f.to..], m, a)
}
