// Brent's method over lent coefficients.

#![tactic(auto)]

ghost use Rattle.std.specs.Prelude.{◌≡◌, List, ◌≤◌, Float};
ghost use Rattle.numerical.specs.Tallies.{Room};
ghost use Rattle.simple_convergency.specs.Stop.{greatest_limit};
ghost use Rattle.simple_convergency.specs.declared.StopRule.{StopRule};
ghost use Rattle.searching.specs.Programs.{oracle, play, tallied};
ghost use Rattle.searching.specs.Turns.{viewed};
ghost use Rattle.brent.specs.Brent.{arrange, opened, second_at, first_at, opening, inverse_quadratic, chord, three_values, guess_of, beyond_quarter, too_slow, stalls, bisects, used_of, next_of, completes, opposite_by, arrived, landed, pulled_in, step_with, step_from, turn_from, brent};

use numerical::{Answer, Outcome, Progress, Sample};
use searching::{Decided, Search, Turn};
use simple_convergency::StopRule;

// Two samples, the larger in size first.
#[derive(Clone, Copy)]
pub struct Arranged {
    pub a: Sample,
    pub b: Sample,
}

// The pair a and b, the b before as c, the point before that as d, and whether the last step was a bisection.
// d is kept through a bisection, as in the Rust, though the next step then reads b and c: an Option would hide that. So would one
// in the flag's place: what stands beside it holds under both.
#[derive(Clone, Copy)]
pub struct Brent {
    pub a: Sample,
    pub b: Sample,
    pub c: Sample,
    pub d: f64,
    pub flag: bool,
}

// The larger in size comes first, and on a tie the second.
#[tactic(auto, unfolding(crate::specs::Brent::arrange))]
fn arrange(p: Sample, q: Sample) -> Arranged
    ensures { result ≡ arrange p q }
{
    if doubles::abs(p.y) > doubles::abs(q.y) {
        Arranged { a: p, b: q }
    } else {
        Arranged { a: q, b: p }
    }
}

// ---- the opening

// Refusal 6, or the first state: c and d are a before any step.
fn opened(pair: Arranged, progress: Progress) -> Turn<Brent>
    ensures { (stop : StopRule) (cs : List Float) → viewed result ≡ play tallied (oracle cs) (opened stop pair) progress }
{
    let Arranged { a, b } = pair;
    let decided = searching::alike(a, b, progress);
    if decided.decision {
        return Turn::refused(6, decided.progress);
    }
    Turn::next(
        Brent {
            a,
            b,
            c: a,
            d: a.x,
            flag: true,
        },
        decided.progress,
    )
}

// Both values are there: they are arranged, then tested.
#[tactic(auto, unfolding(crate::specs::Brent::second_at))]
fn second_at(p: Sample, q: Sample, progress: Progress) -> Turn<Brent>
    ensures { (stop : StopRule) (cs : List Float) → viewed result ≡ play tallied (oracle cs) (second_at stop p q) progress }
{
    opened(arrange(p, q), progress)
}

// The first value is there: the second is worked out, and nothing is tested yet.
#[tactic(auto, using(searching::proofs::StepLaws::steps), unfolding(crate::specs::Brent::first_at))]
fn first_at(a: &[f64], to: f64, p: Sample, progress: Progress) -> Turn<Brent>
    requires { Room 1 progress }
    ensures { (stop : StopRule) → viewed result ≡ play tallied (oracle a.now) (first_at stop to p) progress }
{
    let counted = progress.valued();
    let Some(q) = polynom::evaluate(a, to) else {
        return Turn::refused(9, counted);
    };
    second_at(p, q, counted)
}

// The starts are evaluated in the order given.
// No opening in common with the other methods: each evaluation is taken apart where it is made, as docs/PROMISES.md says.
#[tactic(auto, using(searching::proofs::StepLaws::steps), unfolding(crate::specs::Brent::opening))]
fn opening(a: &[f64], from: f64, to: f64, progress: Progress) -> Turn<Brent>
    requires { Room 2 progress }
    ensures { (stop : StopRule) → viewed result ≡ play tallied (oracle a.now) (opening stop from to) progress }
{
    let counted = progress.valued();
    let Some(p) = polynom::evaluate(a, from) else {
        return Turn::refused(9, counted);
    };
    first_at(a, to, p, counted)
}

// ---- the candidate

// Where the inverse quadratic through the three samples crosses zero.
#[tactic(auto, unfolding(crate::specs::Brent::inverse_quadratic))]
fn inverse_quadratic(s: Brent) -> f64
    ensures { result ≡ inverse_quadratic s }
{
    let a = s.a.x;
    let ya = s.a.y;
    let b = s.b.x;
    let yb = s.b.y;
    let c = s.c.x;
    let yc = s.c.y;
    a * yb * yc / ((ya - yb) * (ya - yc))
        + b * ya * yc / ((yb - ya) * (yb - yc))
        + c * ya * yb / ((yc - ya) * (yc - yb))
}

// Where the chord from a to b crosses zero.
#[tactic(auto, unfolding(crate::specs::Brent::chord))]
fn chord(s: Brent) -> f64
    ensures { result ≡ chord s }
{
    s.a.chord_to(s.b)
}

// Whether c has another value than a and than b.
#[tactic(auto, unfolding(crate::specs::Brent::three_values))]
fn three_values(s: Brent) -> bool
    ensures { result ≡ three_values s }
{
    s.a.y != s.c.y && s.b.y != s.c.y
}

// The guess of a step: by the inverse quadratic where c has another value, otherwise by the chord.
#[tactic(auto, unfolding(crate::specs::Brent::guess_of))]
fn guess_of(s: Brent) -> f64
    ensures { result ≡ guess_of s }
{
    if three_values(s) {
        inverse_quadratic(s)
    } else {
        chord(s)
    }
}

// The first condition: the guess x is not between b and the point a quarter of the way from a to b.
#[tactic(auto, unfolding(crate::specs::Brent::beyond_quarter))]
fn beyond_quarter(s: Brent, x: f64) -> bool
    ensures { result ≡ beyond_quarter s x }
{
    (x - s.b.x) * (x - (3.0 * s.a.x + s.b.x) / 4.0) > 0.0
}

// The second or third condition: the guess x is at least half as far from b as p is from q.
#[tactic(auto, unfolding(crate::specs::Brent::too_slow))]
fn too_slow(s: Brent, p: f64, q: f64, x: f64) -> bool
    ensures { result ≡ too_slow s p q x }
{
    doubles::abs(x - s.b.x) >= doubles::abs(p - q) / 2.0
}

// The second and fourth conditions, or the third and fifth, by the two points that the flag picks.
#[tactic(auto, unfolding(crate::specs::Brent::stalls))]
fn stalls(stop: StopRule, s: Brent, p: f64, q: f64, x: f64) -> bool
    ensures { result ≡ stalls stop s p q x }
{
    too_slow(s, p, q, x) || stop.converged(p, q)
}

// Whether one of the five conditions puts a bisection in place of the guess x.
#[tactic(auto, unfolding(crate::specs::Brent::bisects))]
fn bisects(stop: StopRule, s: Brent, x: f64) -> bool
    ensures { result ≡ bisects stop s x }
{
    if beyond_quarter(s, x) {
        return true;
    }
    if s.flag {
        stalls(stop, s, s.b.x, s.c.x, x)
    } else {
        stalls(stop, s, s.c.x, s.d, x)
    }
}

// The point that is used: the half of the pair, or the guess x.
#[tactic(auto, unfolding(crate::specs::Brent::used_of))]
fn used_of(bisecting: bool, s: Brent, x: f64) -> f64
    ensures { result ≡ used_of bisecting s x }
{
    if bisecting { (s.a.x + s.b.x) / 2.0 } else { x }
}

// ---- a step

// The state after a step: its pair is a and b, the b before becomes c, and c becomes d.
#[tactic(auto, unfolding(crate::specs::Brent::next_of))]
fn moved(s: Brent, a: Sample, b: Sample) -> Brent
    ensures { result ≡ next_of s s.flag (record { a = a; b = b }) }
{
    Brent {
        a,
        b,
        c: s.b,
        d: s.c.x,
        ..s
    }
}

// A step to the two samples, arranged. Each case goes on by itself, which is faster than to choose both ends.
#[tactic(auto, using(searching::proofs::StepLaws::steps), unfolding(crate::specs::Brent::arrange))]
fn step_to(s: Brent, one: Sample, other: Sample, progress: Progress) -> Turn<Brent>
    requires { Room 1 progress }
    ensures { (cs : List Float) → viewed result ≡ play tallied (oracle cs) (completes s s.flag (arrange one other)) progress }
{
    if doubles::abs(one.y) > doubles::abs(other.y) {
        return Turn::next(moved(s, one, other), progress.stepped());
    }
    Turn::next(moved(s, other, one), progress.stepped())
}

// Rule 1: whether the values have opposite signs. The signs decide, and the product the mark alone: it is set where the product says otherwise.
// `searching::alike` isn't its negation: where a value is zero, neither holds.
#[tactic(auto, unfolding(crate::specs::Brent::step_departs))]
fn opposite(p: Sample, q: Sample, progress: Progress) -> Decided
    ensures { result ≡ opposite_by p q progress }
{
    let unlike = doubles::opposite_sign(p.y, q.y);
    let below = doubles::is_below(p.y * q.y);
    Decided {
        decision: unlike,
        progress: progress.ruled(1, unlike != below),
    }
}

// Where a has the sign opposite to that of the sample p, a is kept, otherwise b; the kept end has its value.
#[tactic(auto, using(searching::proofs::StepLaws::steps), unfolding(crate::specs::Brent::arrived, crate::specs::Brent::pair_after, searching::specs::Programs::play))]
fn arrived(s: Brent, p: Sample, progress: Progress) -> Turn<Brent>
    requires { Room 1 progress }
    ensures { (cs : List Float) → viewed result ≡ play tallied (oracle cs) (arrived s s.flag p) progress }
{
    let apart = opposite(s.a, p, progress);
    if apart.decision {
        step_to(s, s.a, p, apart.progress)
    } else {
        step_to(s, p, s.b, apart.progress)
    }
}

// The point x is evaluated.
#[tactic(auto, using(searching::proofs::StepLaws::steps), unfolding(crate::specs::Brent::landed))]
fn landed(a: &[f64], s: Brent, x: f64, progress: Progress) -> Turn<Brent>
    requires { Room 2 progress }
    ensures { viewed result ≡ play tallied (oracle a.now) (landed s s.flag x) progress }
{
    let counted = progress.valued();
    let Some(p) = polynom::evaluate(a, x) else {
        return Turn::refused(9, counted);
    };
    arrived(s, p, counted)
}

// A point outside the pair becomes the nearer end.
#[tactic(auto, using(searching::proofs::StepLaws::steps), unfolding(crate::specs::Brent::pulled_in))]
fn pulled_in(a: &[f64], s: Brent, x: f64, progress: Progress) -> Turn<Brent>
    requires { Room 2 progress }
    ensures { viewed result ≡ play tallied (oracle a.now) (pulled_in s s.flag x) progress }
{
    let placed = searching::pull(s.a.x, s.b.x, x, progress);
    landed(a, s, placed.x, placed.progress)
}

// Only the point that is used is refused or pulled; the flag, whether the step bisects, is set before.
#[tactic(auto, using(searching::proofs::StepLaws::steps), unfolding(crate::specs::Brent::step_with, crate::specs::Brent::pulled_in, crate::specs::Brent::landed, crate::specs::Brent::arrived, crate::specs::Brent::next_of))]
fn step_with(a: &[f64], s: Brent, flag: bool, guess: f64, progress: Progress) -> Turn<Brent>
    requires { Room 2 progress }
    ensures { viewed result ≡ play tallied (oracle a.now) (step_with s flag guess) progress }
{
    let x = used_of(flag, s, guess);
    if doubles::is_finite(x) {
        pulled_in(a, Brent { flag, ..s }, x, progress)
    } else {
        Turn::refused(9, progress)
    }
}

// A step from the guess.
#[tactic(auto, unfolding(crate::specs::Brent::step_from))]
fn step_from(a: &[f64], stop: StopRule, s: Brent, progress: Progress) -> Turn<Brent>
    requires { Room 2 progress }
    ensures { viewed result ≡ play tallied (oracle a.now) (step_from stop s (guess_of s)) progress }
{
    let guess = guess_of(s);
    step_with(a, s, bisects(stop, s, guess), guess, progress)
}

// ---- the search

// The method's rounds, as the loop of searches takes them.
struct Steps;

impl Search for Steps {
    type State = Brent;

    ghost turn = { turn_from };

    // A round: found at a, found at b, converged, and a step.
    #[tactic(auto, using(searching::proofs::StepLaws::steps), unfolding(crate::specs::Brent::turn_from))]
    fn take_turn(a: &[f64], stop: StopRule, s: Brent, progress: Progress) -> Turn<Brent> {
        if stop.found(s.a.y) {
            return Turn::by_value(s.a, progress);
        }
        if stop.found(s.b.y) {
            return Turn::by_value(s.b, progress);
        }
        if stop.converged(s.a.x, s.b.x) {
            return Turn::ended(
                Answer::ByWidth {
                    root: s.c.x,
                    p: s.a.x,
                    q: s.b.x,
                },
                progress,
            );
        }
        step_from(a, stop, s, progress)
    }
}

// A root by Brent's method between two points: the opening, and the rounds from there.
// Two lines in each method, since their openings take different things.
pub fn find_root(a: &[f64], stop: StopRule, from: f64, to: f64) -> Outcome
    requires { stop.limit ≤ greatest_limit }
    ensures { result ≡ brent a.now stop from to }
{
    let opened = opening(a, from, to, Progress::fresh());
    searching::finished::<Steps>(a, stop, opened, stop.turns())
}
