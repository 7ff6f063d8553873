// The polynomial search over lent coefficients: a pair narrowed by its middle and by Newton's point from there.

#![tactic(auto)]

ghost use Rattle.std.specs.Prelude.{◌≡◌, List, ◌≤◌, Float};
ghost use Rattle.numerical.specs.Tallies.{Room};
ghost use Rattle.simple_convergency.specs.Stop.{greatest_limit};
ghost use Rattle.simple_convergency.specs.declared.StopRule.{StopRule};
ghost use Rattle.searching.specs.Programs.{oracle, play, tallied};
ghost use Rattle.searching.specs.Turns.{viewed};
ghost use Rattle.polynom_search.specs.PolynomSearch.{second_at, first_at, ordered, opening, chosen, closer, in_pair, at_middle, step_at, width_at, middle_in, at_middle_of, turn_from, polynom_search};

use numerical::{Answer, Interval, Outcome, Progress, Sample};
use polynom::ValueAndDerivative;
use searching::{Placed, Search, Turn};
use simple_convergency::StopRule;

// ---- the opening

// With both samples at hand: refusal 6 where they share a sign, or else the first pair.
#[tactic(auto, using(searching::proofs::StepLaws::steps), unfolding(crate::specs::PolynomSearch::second_at))]
fn second_at(p: Sample, q: Sample, progress: Progress) -> Turn<Interval>
    ensures { (cs : List Float) (stop : StopRule) → viewed result ≡ play tallied (oracle cs) (second_at stop p q) progress }
{
    let decided = searching::alike(p, q, progress);
    if decided.decision {
        Turn::refused(6, decided.progress)
    } else {
        Turn::next(Interval { begin: p, end: q }, decided.progress)
    }
}

// With the first end's sample at hand, the second is evaluated.
#[tactic(auto, using(searching::proofs::StepLaws::steps), unfolding(crate::specs::PolynomSearch::first_at))]
fn first_at(a: &[f64], end: f64, p: Sample, progress: Progress) -> Turn<Interval>
    requires { Room 1 progress }
    ensures { (stop : StopRule) → viewed result ≡ play tallied (oracle a.now) (first_at stop end p) progress }
{
    let counted = progress.valued();
    let Some(q) = polynom::evaluate(a, end) else {
        return Turn::refused(9, counted);
    };
    second_at(p, q, counted)
}

// The first end is evaluated, then the second.
// No opening in common with the other methods: each evaluation is taken apart where it is made, as docs/PROMISES.md says.
#[tactic(auto, using(searching::proofs::StepLaws::steps), unfolding(crate::specs::PolynomSearch::ordered))]
fn ordered(a: &[f64], begin: f64, end: f64, progress: Progress) -> Turn<Interval>
    requires { Room 2 progress }
    ensures { (stop : StopRule) → viewed result ≡ play tallied (oracle a.now) (ordered stop begin end) progress }
{
    let counted = progress.valued();
    let Some(p) = polynom::evaluate(a, begin) else {
        return Turn::refused(9, counted);
    };
    first_at(a, end, p, counted)
}

// The starts are ordered, and both are evaluated.
fn opening(a: &[f64], from: f64, to: f64, progress: Progress) -> Turn<Interval>
    requires { Room 2 progress }
    ensures { (stop : StopRule) → viewed result ≡ play tallied (oracle a.now) (opening stop from to) progress }
{
    let starts = searching::in_order(from, to);
    ordered(a, starts.first, starts.second, progress)
}

// ---- a step

// The step ends with the pair that the sample narrows: it replaces begin where it shares its sign, and end otherwise.
#[tactic(auto, using(searching::proofs::StepLaws::steps), unfolding(crate::specs::PolynomSearch::chosen, crate::specs::PolynomSearch::replaced_of))]
fn chosen(i: Interval, p: Sample, progress: Progress) -> Turn<Interval>
    requires { Room 1 progress }
    ensures { (cs : List Float) → viewed result ≡ play tallied (oracle cs) (chosen i p) progress }
{
    let decided = searching::alike(i.begin, p, progress);
    if decided.decision {
        Turn::next(Interval { begin: p, ..i }, decided.progress.stepped())
    } else {
        Turn::next(Interval { end: p, ..i }, decided.progress.stepped())
    }
}

// Newton's sample is taken only if its value is strictly smaller in size.
#[tactic(auto, using(searching::proofs::StepLaws::steps), unfolding(crate::specs::PolynomSearch::closer))]
fn closer(i: Interval, middle: Sample, p: Sample, progress: Progress) -> Turn<Interval>
    requires { Room 1 progress }
    ensures { (cs : List Float) → viewed result ≡ play tallied (oracle cs) (closer i middle p) progress }
{
    if doubles::abs(p.y) < doubles::abs(middle.y) {
        chosen(i, p, progress)
    } else {
        chosen(i, middle, progress)
    }
}

// A point that is not finite is simply outside.
#[tactic(auto, unfolding(crate::specs::PolynomSearch::in_pair))]
fn in_pair(i: Interval, x: f64) -> bool
    ensures { result ≡ in_pair i x }
{
    i.begin.x <= x && x <= i.end.x
}

// From the sample at `middle`: Newton's point is tried where the derivative is nonzero and the point lies in the pair, and one of the two is chosen.
#[tactic(auto, using(searching::proofs::StepLaws::steps), unfolding(crate::specs::PolynomSearch::at_middle, crate::specs::PolynomSearch::usable))]
fn at_middle(a: &[f64], i: Interval, v: ValueAndDerivative, progress: Progress) -> Turn<Interval>
    requires { Room 2 progress }
    ensures { viewed result ≡ play tallied (oracle a.now) (at_middle i v) progress }
{
    let x = v.newton_point();
    if v.derivative != 0.0 && in_pair(i, x) {
        let counted = progress.valued();
        let Some(p) = polynom::evaluate(a, x) else {
            return Turn::refused(9, counted);
        };
        closer(i, v.value, p, counted)
    } else {
        chosen(i, v.value, progress)
    }
}

// The value and the derivative at x, and what follows from them.
#[tactic(auto, using(searching::proofs::StepLaws::steps), unfolding(crate::specs::PolynomSearch::step_at))]
fn step_at(a: &[f64], i: Interval, x: f64, progress: Progress) -> Turn<Interval>
    requires { Room 3 progress }
    ensures { viewed result ≡ play tallied (oracle a.now) (step_at i x) progress }
{
    let counted = progress.sloped();
    let Some(v) = polynom::evaluate_both(a, x) else {
        return Turn::refused(9, counted);
    };
    at_middle(a, i, v, counted)
}

// `middle`, pulled into the pair, unless it is not finite.
fn middle_in(i: Interval, progress: Progress) -> Option<Placed>
    ensures { result ≡ middle_in i progress }
{
    let x = i.middle();
    if doubles::is_finite(x) {
        Some(searching::pull(i.begin.x, i.end.x, x, progress))
    } else {
        None
    }
}

// The pair has converged: `middle` is the root, by width.
#[tactic(auto, using(searching::proofs::StepLaws::steps), unfolding(crate::specs::PolynomSearch::at_middle_of, crate::specs::PolynomSearch::pulled_in, crate::specs::PolynomSearch::width_at))]
fn by_width(i: Interval, progress: Progress) -> Turn<Interval>
    ensures { (cs : List Float) → viewed result ≡ play tallied (oracle cs) (at_middle_of i (width_at i)) progress }
{
    let Some(placed) = middle_in(i, progress) else {
        return Turn::refused(9, progress);
    };
    Turn::ended(
        Answer::ByWidth {
            root: placed.x,
            p: i.begin.x,
            q: i.end.x,
        },
        placed.progress,
    )
}

// The pair has not converged: a step from `middle`.
#[tactic(auto, using(searching::proofs::StepLaws::steps), unfolding(crate::specs::PolynomSearch::at_middle_of, crate::specs::PolynomSearch::pulled_in))]
fn narrow(a: &[f64], i: Interval, progress: Progress) -> Turn<Interval>
    requires { Room 3 progress }
    ensures { viewed result ≡ play tallied (oracle a.now) (at_middle_of i (step_at i)) progress }
{
    let Some(placed) = middle_in(i, progress) else {
        return Turn::refused(9, progress);
    };
    step_at(a, i, placed.x, placed.progress)
}

// ---- the search

// The method's rounds, as the loop of searches takes them.
struct Steps;

impl Search for Steps {
    type State = Interval;

    ghost turn = { turn_from };

    // One round: found at begin, found at end, then converged, and else a step.
    #[tactic(auto, using(searching::proofs::StepLaws::steps), unfolding(crate::specs::PolynomSearch::turn_from))]
    fn take_turn(a: &[f64], stop: StopRule, i: Interval, progress: Progress) -> Turn<Interval> {
        if stop.found(i.begin.y) {
            Turn::by_value(i.begin, progress)
        } else if stop.found(i.end.y) {
            Turn::by_value(i.end, progress)
        } else if stop.converged(i.begin.x, i.end.x) {
            by_width(i, progress)
        } else {
            narrow(a, i, progress)
        }
    }
}

// A root by the polynomial search from two starts: the opening, and the rounds from there.
// Two lines in each method, since their openings take different things.
pub fn find_root(a: &[f64], stop: StopRule, from: f64, to: f64) -> Outcome
    requires { stop.limit ≤ greatest_limit }
    ensures { result ≡ polynom_search a.now stop from to }
{
    let opened = opening(a, from, to, Progress::fresh());
    searching::finished::<Steps>(a, stop, opened, stop.turns())
}
