// Newton's method over lent coefficients.

#![tactic(auto)]

ghost use Rattle.std.specs.Prelude.{◌≡◌, List, ◌≤◌, Float};
ghost use Rattle.numerical.specs.Tallies.{Room};
ghost use Rattle.simple_convergency.specs.Stop.{greatest_limit};
ghost use Rattle.searching.specs.Programs.{oracle, play, tallied};
ghost use Rattle.searching.specs.Turns.{seen, viewed};
ghost use Rattle.newton_raphson.specs.NewtonRaphson.{landed, onward, later_at, turn_from, nudge, first_at, opening, turns_left, newton_raphson};

use numerical::{Answer, Outcome, Progress};
use polynom::ValueAndDerivative;
use searching::{Search, Turn};
use simple_convergency::StopRule;
use std::ops::ControlFlow;

// Where the search stands, and whether the step that led there was the nudge: first, where an answer has its kind, so that x lies where a root does.
// A flag beside x, and no Option: x is the point to go on from either way.
#[derive(Clone, Copy)]
pub struct Spot {
    pub nudged: bool,
    pub x: f64,
}

// ---- a step

// The next point is close to this one, or the search goes on there.
#[tactic(auto, using(searching::proofs::StepLaws::steps), unfolding(crate::specs::NewtonRaphson::landed))]
fn landed(stop: StopRule, x: f64, x1: f64, progress: Progress) -> Turn<Spot>
    requires { Room 1 progress }
    ensures { (cs : List Float) → viewed result ≡ play tallied (oracle cs) (landed stop x x1) progress }
{
    if stop.converged(x, x1) {
        return Turn::ended(
            Answer::ByWidth {
                root: x1,
                p: x,
                q: x1,
            },
            progress,
        );
    }
    Turn::next(
        Spot {
            x: x1,
            nudged: false,
        },
        progress.stepped(),
    )
}

// The next point must be finite.
#[tactic(auto, using(searching::proofs::StepLaws::steps), unfolding(crate::specs::NewtonRaphson::onward))]
fn onward(stop: StopRule, v: ValueAndDerivative, progress: Progress) -> Turn<Spot>
    requires { Room 1 progress }
    ensures { (cs : List Float) → viewed result ≡ play tallied (oracle cs) (onward stop v) progress }
{
    let x1 = v.newton_point();
    if doubles::is_finite(x1) {
        landed(stop, v.value.x, x1, progress)
    } else {
        Turn::refused(9, progress)
    }
}

// After the first pass: found, or flat, or a step.
fn later_at(stop: StopRule, v: ValueAndDerivative, progress: Progress) -> Turn<Spot>
    requires { Room 1 progress }
    ensures { (cs : List Float) → viewed result ≡ play tallied (oracle cs) (later_at stop v) progress }
{
    if stop.found(v.value.y) {
        return Turn::by_value(v.value, progress);
    }
    let slope = v.derivative;
    if stop.flat(slope) {
        return Turn::refused(7, progress);
    }
    onward(stop, v, progress)
}

// ---- the opening is the first pass, which may nudge

// A flat start is left by 1.
#[tactic(auto, using(searching::proofs::StepLaws::steps), unfolding(crate::specs::NewtonRaphson::nudge, crate::specs::NewtonRaphson::nudged_to))]
fn nudge(x: f64, progress: Progress) -> Turn<Spot>
    requires { Room 1 progress }
    ensures { (cs : List Float) → viewed result ≡ play tallied (oracle cs) (nudge x) progress }
{
    let y = x + 1.0;
    if doubles::is_finite(y) {
        Turn::next(Spot { x: y, nudged: true }, progress.stepped())
    } else {
        Turn::refused(9, progress)
    }
}

// The first pass: found, or flat and nudged, or a step.
#[tactic(auto, using(searching::proofs::StepLaws::steps), unfolding(crate::specs::NewtonRaphson::first_at))]
fn first_at(stop: StopRule, v: ValueAndDerivative, progress: Progress) -> Turn<Spot>
    requires { Room 1 progress }
    ensures { (cs : List Float) → viewed result ≡ play tallied (oracle cs) (first_at stop v) progress }
{
    if stop.found(v.value.y) {
        return Turn::by_value(v.value, progress);
    }
    if stop.flat(v.derivative) {
        return nudge(v.value.x, progress);
    }
    onward(stop, v, progress)
}

// The first pass evaluates the start.
// No opening in common with the other methods: each evaluation is taken apart where it is made, as docs/PROMISES.md says.
#[tactic(auto, using(searching::proofs::StepLaws::steps), unfolding(crate::specs::NewtonRaphson::opening))]
fn opening(a: &[f64], stop: StopRule, start: f64, progress: Progress) -> Turn<Spot>
    requires { Room 2 progress }
    ensures { viewed result ≡ play tallied (oracle a.now) (opening stop start) progress }
{
    let counted = progress.sloped();
    let Some(v) = polynom::evaluate_both(a, start) else {
        return Turn::refused(9, counted);
    };
    first_at(stop, v, counted)
}

// ---- the search

// The passes left where the first pass led: the nudge has no limit test, so one more pass follows it.
fn passes_left(stop: StopRule, opened: Turn<Spot>) -> u64
    ensures { result ≡ turns_left stop (seen opened.leads) }
{
    match opened.leads {
        ControlFlow::Break(_) => 0,
        ControlFlow::Continue(s) => {
            let left = stop.limit.saturating_sub(1);
            if s.nudged { left.max(1) } else { left }
        }
    }
}

// The method's passes, as the loop of searches takes them.
struct Passes;

impl Search for Passes {
    type State = Spot;

    ghost turn = { turn_from };

    // A pass after the first evaluates the point at hand.
    #[tactic(auto, using(searching::proofs::StepLaws::steps), unfolding(crate::specs::NewtonRaphson::turn_from))]
    fn take_turn(a: &[f64], stop: StopRule, s: Spot, progress: Progress) -> Turn<Spot> {
        let counted = progress.sloped();
        let Some(v) = polynom::evaluate_both(a, s.x) else {
            return Turn::refused(9, counted);
        };
        later_at(stop, v, counted)
    }
}

// A root by Newton's method from one point: the first pass, and then those that are left until an end or the limit.
pub fn find_root(a: &[f64], stop: StopRule, start: f64) -> Outcome
    requires { stop.limit ≤ greatest_limit }
    ensures { result ≡ newton_raphson a.now stop start }
{
    let opened = opening(a, stop, start, Progress::fresh());
    let most = passes_left(stop, opened);
    searching::finished::<Passes>(a, stop, opened, most)
}
