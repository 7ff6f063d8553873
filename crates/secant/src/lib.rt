// The secant method over lent coefficients.

#![tactic(auto)]

ghost use Rattle.std.specs.Prelude.{◌≡◌, List, ◌≤◌, Float};
ghost use Rattle.numerical.specs.Tallies.{Room};
ghost use Rattle.simple_convergency.specs.Stop.{greatest_limit};
ghost use Rattle.searching.specs.Programs.{oracle, play, tallied};
ghost use Rattle.searching.specs.Turns.{viewed};
ghost use Rattle.secant.specs.Secant.{second_at, first_at, opening, candidate_of, arrived, landed, turn_from, secant};

use numerical::{Answer, Outcome, Progress, Sample};
use searching::{Search, Turn};
use simple_convergency::StopRule;

// The two last points.
#[derive(Clone, Copy)]
pub struct Secant {
    pub first: Sample,
    pub second: Sample,
}

// ---- the opening

// Both starts were evaluated: the second is found, or the two are the first state.
#[tactic(auto, using(searching::proofs::StepLaws::steps), unfolding(crate::specs::Secant::second_at))]
fn second_at(stop: StopRule, first: Sample, second: Sample, progress: Progress) -> Turn<Secant>
    ensures { (cs : List Float) → viewed result ≡ play tallied (oracle cs) (second_at stop first second) progress }
{
    if stop.found(second.y) {
        return Turn::by_value(second, progress);
    }
    Turn::next(Secant { first, second }, progress)
}

// The first start was evaluated: it is found, or the second is evaluated.
#[tactic(auto, using(searching::proofs::StepLaws::steps), unfolding(crate::specs::Secant::first_at))]
fn first_at(a: &[f64], stop: StopRule, second: f64, p: Sample, progress: Progress) -> Turn<Secant>
    requires { Room 1 progress }
    ensures { viewed result ≡ play tallied (oracle a.now) (first_at stop second p) progress }
{
    if stop.found(p.y) {
        return Turn::by_value(p, progress);
    }
    let counted = progress.valued();
    let Some(q) = polynom::evaluate(a, second) else {
        return Turn::refused(9, counted);
    };
    second_at(stop, p, q, counted)
}

// The first start is evaluated.
// No opening in common with the other methods: each evaluation is taken apart where it is made, as docs/PROMISES.md says.
#[tactic(auto, using(searching::proofs::StepLaws::steps), unfolding(crate::specs::Secant::opening))]
fn opening(a: &[f64], stop: StopRule, first: f64, second: f64, progress: Progress) -> Turn<Secant>
    requires { Room 2 progress }
    ensures { viewed result ≡ play tallied (oracle a.now) (opening stop first second) progress }
{
    let counted = progress.valued();
    let Some(p) = polynom::evaluate(a, first) else {
        return Turn::refused(9, counted);
    };
    first_at(a, stop, second, p, counted)
}

// ---- a step

// Where the line through the two points crosses zero.
#[tactic(auto, unfolding(crate::specs::Secant::candidate_of))]
fn candidate(s: Secant) -> f64
    ensures { result ≡ candidate_of s }
{
    s.first.chord_to(s.second)
}

// The candidate was evaluated: it is found, or the two last points go on.
#[tactic(auto, using(searching::proofs::StepLaws::steps), unfolding(crate::specs::Secant::arrived))]
fn arrived(stop: StopRule, s: Secant, second: Sample, progress: Progress) -> Turn<Secant>
    requires { Room 1 progress }
    ensures { (cs : List Float) → viewed result ≡ play tallied (oracle cs) (arrived stop s second) progress }
{
    if stop.found(second.y) {
        return Turn::by_value(second, progress);
    }
    let first = s.second;
    Turn::next(Secant { first, second }, progress.stepped())
}

// The candidate is close to the last point, or it is evaluated.
#[tactic(auto, using(searching::proofs::StepLaws::steps), unfolding(crate::specs::Secant::landed))]
fn landed(a: &[f64], stop: StopRule, s: Secant, x: f64, progress: Progress) -> Turn<Secant>
    requires { Room 2 progress }
    ensures { viewed result ≡ play tallied (oracle a.now) (landed stop s x) progress }
{
    let x2 = s.second.x;
    if stop.converged(x, x2) {
        return Turn::ended(
            Answer::ByWidth {
                root: x,
                p: x,
                q: x2,
            },
            progress,
        );
    }
    let counted = progress.valued();
    let Some(p) = polynom::evaluate(a, x) else {
        return Turn::refused(9, counted);
    };
    arrived(stop, s, p, counted)
}

// ---- the search

// The method's steps, as the loop of searches takes them.
struct Steps;

impl Search for Steps {
    type State = Secant;

    ghost turn = { turn_from };

    // One step: the values must differ, and the candidate must be finite.
    fn take_turn(a: &[f64], stop: StopRule, s: Secant, progress: Progress) -> Turn<Secant> {
        if stop.flat(s.first.y - s.second.y) {
            return Turn::refused(7, progress);
        }
        let x = candidate(s);
        if doubles::is_finite(x) {
            landed(a, stop, s, x, progress)
        } else {
            Turn::refused(9, progress)
        }
    }
}

// A root by the secant method from two points: the opening, and the steps from there.
// Two lines in each method, since their openings take different things.
pub fn find_root(a: &[f64], stop: StopRule, first: f64, second: f64) -> Outcome
    requires { stop.limit ≤ greatest_limit }
    ensures { result ≡ secant a.now stop first second }
{
    let opened = opening(a, stop, first, second, Progress::fresh());
    searching::finished::<Steps>(a, stop, opened, stop.turns())
}
