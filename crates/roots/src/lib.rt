// The calls that a customer makes: one search over lent coefficients, and one for each method under its name in the Rust.

#![tactic(auto)]

ghost use Rattle.std.specs.Prelude.{◌≡◌, ◌≤◌, IfOk};
ghost use Rattle.simple_convergency.specs.Stop.{greatest_limit, one_eps, plain_limit};
ghost use Rattle.roots.specs.Calls.{bad_count, all_finite, two_starts, found_by, bad_call_number, answered, answer};
ghost use Rattle.roots.specs.Methods.{method_number, start_count, method_of};
ghost use Rattle.roots.specs.declared.BadCall.TheVariants.{Rule};

use numerical::Outcome;
use simple_convergency::{BadRule, StopRule, Tolerances};

// A method with its starts.
#[derive(Clone, Copy)]
pub enum Method {
    Brent { from: f64, to: f64 },
    RegulaFalsi { from: f64, to: f64 },
    Secant { first: f64, second: f64 },
    NewtonRaphson { start: f64 },
    Polynom { from: f64, to: f64 },
}

impl Method {
    // The method of a number from 1 to 5, with its starts; Newton has the first alone. It takes every number, so it is no TryFrom.
    pub fn numbered(number: u8, first: f64, second: f64) -> Method
        ensures { result ≡ method_of number first second }
    {
        match number {
            1 => Method::Brent {
                from: first,
                to: second,
            },
            2 => Method::RegulaFalsi {
                from: first,
                to: second,
            },
            3 => Method::Secant { first, second },
            4 => Method::NewtonRaphson { start: first },
            _ => Method::Polynom {
                from: first,
                to: second,
            },
        }
    }

    // How many starts the method of a number has. Of a number, since records and lines read the starts before they have a method.
    pub fn start_count(number: u8) -> usize
        ensures { result ≡ start_count number }
    {
        if number == 4 { 1 } else { 2 }
    }

    pub fn number(self) -> u8
        ensures { result ≡ method_number self }
    {
        match self {
            Method::Brent { .. } => 1,
            Method::RegulaFalsi { .. } => 2,
            Method::Secant { .. } => 3,
            Method::NewtonRaphson { .. } => 4,
            Method::Polynom { .. } => 5,
        }
    }

    // Its starts, and +0.0 where there is no second.
    pub fn starts(self) -> [f64; 2]
        ensures { result ≡ two_starts self }
    {
        match self {
            Method::Brent { from, to } => [from, to],
            Method::RegulaFalsi { from, to } => [from, to],
            Method::Secant { first, second } => [first, second],
            Method::NewtonRaphson { start } => [start, 0.0],
            Method::Polynom { from, to } => [from, to],
        }
    }
}

// Why a call is refused before any evaluation.
#[derive(Clone, Copy, Debug, PartialEq, Eq)]
pub enum BadCall {
    Count,
    Coefficients,
    Starts,
    Rule(BadRule),
}

impl BadCall {
    // Its number among the refusals.
    pub fn number(self) -> u8
        ensures { result ≡ bad_call_number self }
    {
        match self {
            BadCall::Count => 1,
            BadCall::Coefficients => 2,
            BadCall::Starts => 3,
            BadCall::Rule(why) => why.number(),
        }
    }
}

impl From<BadRule> for BadCall {
    ghost from_gives = { λ why r. r ≡ Rule why };

    fn from(why: BadRule) -> BadCall {
        BadCall::Rule(why)
    }
}

// Whether there are none, or too many, coefficients.
fn is_bad_count(count: usize) -> bool
    ensures { result ≡ bad_count count }
{
    if count == 0 {
        true
    } else {
        StopRule::MOST_COEFFICIENTS < count
    }
}

// Whether each of the doubles is finite.
fn all_finite(a: &[f64]) -> bool
    ensures { result ≡ all_finite a.now }
{
    a.iter().all(|x| doubles::is_finite(*x))
}

// The method's own search, for a call that was checked. The methods are five and closed, as the numbers of C: a match, and no closure.
fn found_by(a: &[f64], stop: StopRule, method: Method) -> Outcome
    requires { stop.limit ≤ greatest_limit }
    ensures { result ≡ found_by a.now stop method }
{
    match method {
        Method::Brent { from, to } => brent::find_root(a, stop, from, to),
        Method::RegulaFalsi { from, to } => regula_falsi::find_root(a, stop, from, to),
        Method::Secant { first, second } => secant::find_root(a, stop, first, second),
        Method::NewtonRaphson { start } => newton_raphson::find_root(a, stop, start),
        Method::Polynom { from, to } => polynom_search::find_root(a, stop, from, to),
    }
}

// The stop rule of a call that may be searched, or the first of what is wrong with it: 1 to 5 in that order. No struct of a call's
// parts: `search` takes them one by one, as README has it, and hands them on once.
fn checked_call(
    a: &[f64],
    method: Method,
    tolerances: Tolerances,
    limit: u64,
) -> Result<StopRule, BadCall>
    ensures in_order { answered a.now method result ≡ answer a.now method tolerances limit }
    ensures in_range { IfOk result (λ stop. stop.limit ≤ greatest_limit) }
{
    if is_bad_count(a.len()) {
        return Err(BadCall::Count);
    }
    if !all_finite(a) {
        return Err(BadCall::Coefficients);
    }
    if !all_finite(&method.starts()) {
        return Err(BadCall::Starts);
    }
    Ok(StopRule::checked(tolerances, limit)?)
}

// A search: the refusals before any evaluation, and then the method.
pub fn search(a: &[f64], method: Method, tolerances: Tolerances, limit: u64) -> Outcome
    ensures { result ≡ answer a.now method tolerances limit }
{
    match checked_call(a, method, tolerances, limit) {
        Ok(stop) => found_by(a, stop, method),
        Err(why) => Outcome::refused_at_once(why.number()),
    }
}

// ---- for who comes from the Rust: one eps for both tolerances

// A search with one eps, as the Rust's SimpleConvergency has it.
pub fn search_simple(a: &[f64], method: Method, eps: f64, limit: u64) -> Outcome
    ensures { result ≡ answer a.now method (one_eps eps) limit }
{
    search(a, method, Tolerances::both(eps), limit)
}

// A search with the limit that a plain eps has in the Rust.
pub fn search_plain(a: &[f64], method: Method, eps: f64) -> Outcome
    ensures { result ≡ answer a.now method (one_eps eps) plain_limit }
{
    search_simple(a, method, eps, StopRule::PLAIN_LIMIT)
}

// By the Rust's names, of which README speaks: each is `search_simple` with its method.
pub fn find_root_brent(from: f64, to: f64, a: &[f64], eps: f64, limit: u64) -> Outcome
    ensures { result ≡ answer a.now (Method.Brent from to) (one_eps eps) limit }
{
    search_simple(a, Method::Brent { from, to }, eps, limit)
}

pub fn find_root_regula_falsi(from: f64, to: f64, a: &[f64], eps: f64, limit: u64) -> Outcome
    ensures { result ≡ answer a.now (Method.RegulaFalsi from to) (one_eps eps) limit }
{
    search_simple(a, Method::RegulaFalsi { from, to }, eps, limit)
}

pub fn find_root_secant(first: f64, second: f64, a: &[f64], eps: f64, limit: u64) -> Outcome
    ensures { result ≡ answer a.now (Method.Secant first second) (one_eps eps) limit }
{
    search_simple(a, Method::Secant { first, second }, eps, limit)
}

pub fn find_root_newton_raphson(start: f64, a: &[f64], eps: f64, limit: u64) -> Outcome
    ensures { result ≡ answer a.now (Method.NewtonRaphson start) (one_eps eps) limit }
{
    search_simple(a, Method::NewtonRaphson { start }, eps, limit)
}

// The polynomial search, which the Rust keeps private as find_root of polynom.rs.
pub fn find_root_polynom(from: f64, to: f64, a: &[f64], eps: f64, limit: u64) -> Outcome
    ensures { result ≡ answer a.now (Method.Polynom from to) (one_eps eps) limit }
{
    search_simple(a, Method::Polynom { from, to }, eps, limit)
}
