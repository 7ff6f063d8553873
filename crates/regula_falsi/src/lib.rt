// The Illinois form of regula falsi over lent coefficients.

#![tactic(auto)]

ghost use Rattle.std.specs.Prelude.{◌≡◌, List, ◌≤◌, Float, cond};
ghost use Rattle.numerical.specs.Tallies.{Room};
ghost use Rattle.simple_convergency.specs.Stop.{greatest_limit};
ghost use Rattle.searching.specs.Programs.{oracle, play, tallied};
ghost use Rattle.searching.specs.Turns.{viewed};
ghost use Rattle.regula_falsi.specs.RegulaFalsi.{whole, halved, second_at, first_at, ordered, opening, candidate_of, left_replaced, right_replaced, replaced_of, departs, arrived, landed, pulled_in, turn_from, regula_falsi};

use numerical::{Answer, Outcome, Progress, Sample};
use searching::{Search, Turn};
use simple_convergency::StopRule;

// An end of the pair: its sample, and the value that the chord is drawn with.
#[derive(Clone, Copy)]
pub struct End {
    pub at: Sample,
    pub weight: f64,
}

// Which end the step before replaced. No Option of an end: the definitions `right_after` and `left_after`, and the theorems over
// them, take these three, by the Rust's names.
#[derive(Clone, Copy)]
pub enum Edge {
    EdgeX1,
    NoEdge,
    EdgeX2,
}

// The two ends of the pair, and which of them the step before replaced.
#[derive(Clone, Copy)]
pub struct Illinois {
    pub left: End,
    pub right: End,
    pub edge: Edge,
}

// An end with its full weight.
fn whole(at: Sample) -> End
    ensures { result ≡ whole at }
{
    End { at, weight: at.y }
}

// ---- the opening

// Both values are there: the second is found, or the two have the same sign, or they are the first pair.
#[tactic(auto, using(searching::proofs::StepLaws::steps), unfolding(crate::specs::RegulaFalsi::second_at))]
fn second_at(stop: StopRule, p: Sample, q: Sample, progress: Progress) -> Turn<Illinois>
    ensures { (cs : List Float) → viewed result ≡ play tallied (oracle cs) (second_at stop p q) progress }
{
    if stop.found(q.y) {
        return Turn::by_value(q, progress);
    }
    let decided = searching::alike(p, q, progress);
    if decided.decision {
        return Turn::refused(6, decided.progress);
    }
    Turn::next(
        Illinois {
            left: whole(p),
            right: whole(q),
            edge: Edge::NoEdge,
        },
        decided.progress,
    )
}

// The first value is there: it is found, or the second is worked out.
#[tactic(auto, using(searching::proofs::StepLaws::steps), unfolding(crate::specs::RegulaFalsi::first_at))]
fn first_at(a: &[f64], stop: StopRule, x2: f64, p: Sample, progress: Progress) -> Turn<Illinois>
    requires { Room 1 progress }
    ensures { viewed result ≡ play tallied (oracle a.now) (first_at stop x2 p) progress }
{
    if stop.found(p.y) {
        return Turn::by_value(p, progress);
    }
    let counted = progress.valued();
    let Some(q) = polynom::evaluate(a, x2) else {
        return Turn::refused(9, counted);
    };
    second_at(stop, p, q, counted)
}

// The opening from starts that are in order: the first is evaluated.
// No opening in common with the other methods: each evaluation is taken apart where it is made, as docs/PROMISES.md says.
#[tactic(auto, using(searching::proofs::StepLaws::steps), unfolding(crate::specs::RegulaFalsi::ordered))]
fn ordered(a: &[f64], stop: StopRule, x1: f64, x2: f64, progress: Progress) -> Turn<Illinois>
    requires { Room 2 progress }
    ensures { viewed result ≡ play tallied (oracle a.now) (ordered stop x1 x2) progress }
{
    let counted = progress.valued();
    let Some(p) = polynom::evaluate(a, x1) else {
        return Turn::refused(9, counted);
    };
    first_at(a, stop, x2, p, counted)
}

// The opening from any two starts.
fn opening(a: &[f64], stop: StopRule, from: f64, to: f64, progress: Progress) -> Turn<Illinois>
    requires { Room 2 progress }
    ensures { viewed result ≡ play tallied (oracle a.now) (opening stop from to) progress }
{
    let starts = searching::in_order(from, to);
    ordered(a, stop, starts.first, starts.second, progress)
}

// ---- a step

// Where the chord through the weights crosses zero.
#[tactic(auto, unfolding(crate::specs::RegulaFalsi::candidate_of))]
fn candidate(s: Illinois) -> f64
    ensures { result ≡ candidate_of s }
{
    (s.left.at.x * s.right.weight - s.right.at.x * s.left.weight) / (s.right.weight - s.left.weight)
}

// The same end at half its weight.
fn halve(e: End) -> End
    ensures { result ≡ halved e }
{
    End {
        weight: e.weight / 2.0,
        ..e
    }
}

// The end that stays: at half its weight if the step before replaced the same end as this one.
fn kept(e: End, again: bool) -> End
    ensures { result ≡ cond again (halved e) e }
{
    if again { halve(e) } else { e }
}

// The sample takes the left end's place.
fn left_replaced(s: Illinois, p: Sample) -> Illinois
    ensures { result ≡ left_replaced s p }
{
    Illinois {
        left: whole(p),
        right: kept(s.right, matches!(s.edge, Edge::EdgeX1)),
        edge: Edge::EdgeX1,
    }
}

// The sample takes the right end's place. Each side has its own function: one for both would take two ends and a side, and give
// them back in an order that its callers turn.
fn right_replaced(s: Illinois, p: Sample) -> Illinois
    ensures { result ≡ right_replaced s p }
{
    Illinois {
        left: kept(s.left, matches!(s.edge, Edge::EdgeX2)),
        right: whole(p),
        edge: Edge::EdgeX2,
    }
}

// The sample takes the place of the end whose sign it shares.
#[tactic(auto, using(numerical::proofs::Choices::choices), unfolding(crate::specs::RegulaFalsi::replaced_of))]
fn replaced(s: Illinois, p: Sample) -> Illinois
    ensures { result ≡ replaced_of s p }
{
    if doubles::same_sign(p.y, s.left.at.y) {
        left_replaced(s, p)
    } else {
        right_replaced(s, p)
    }
}

// Rule 1: whether the Rust, which tests the products with the weights in turn and has a last branch, would go elsewhere.
#[tactic(auto, using(crate::proofs::RegulaFalsiLaws::elsewhere_tests), unfolding(crate::specs::RegulaFalsi::departs))]
fn departs(s: Illinois, p: Sample) -> bool
    ensures { result ≡ departs s p }
{
    let same = doubles::same_sign(p.y, s.left.at.y);
    let first = doubles::is_above(p.y * s.left.weight);
    let second = doubles::is_above(p.y * s.right.weight);
    same & !first | !same & (first | !second)
}

// The sample at the candidate is found, or the signs of the samples pick the end that it replaces. The products with the weights decide the mark alone.
#[tactic(auto, using(searching::proofs::StepLaws::steps), unfolding(crate::specs::RegulaFalsi::arrived))]
fn arrived(stop: StopRule, s: Illinois, sample: Sample, p: Progress) -> Turn<Illinois>
    requires { Room 1 p }
    ensures { (cs : List Float) → viewed result ≡ play tallied (oracle cs) (arrived stop s sample) p }
{
    if stop.found(sample.y) {
        return Turn::by_value(sample, p);
    }
    let marked = p.ruled(1, departs(s, sample));
    Turn::next(replaced(s, sample), marked.stepped())
}

// The pair is small enough and x is the answer, or x is evaluated.
#[tactic(auto, using(searching::proofs::StepLaws::steps), unfolding(crate::specs::RegulaFalsi::landed))]
fn landed(a: &[f64], stop: StopRule, s: Illinois, x: f64, p: Progress) -> Turn<Illinois>
    requires { Room 2 p }
    ensures { viewed result ≡ play tallied (oracle a.now) (landed stop s x) p }
{
    let x1 = s.left.at.x;
    let x2 = s.right.at.x;
    if stop.converged(x1, x2) {
        return Turn::ended(
            Answer::ByWidth {
                root: x,
                p: x1,
                q: x2,
            },
            p,
        );
    }
    let counted = p.valued();
    let Some(q) = polynom::evaluate(a, x) else {
        return Turn::refused(9, counted);
    };
    arrived(stop, s, q, counted)
}

// A candidate outside the pair becomes the nearer end.
#[tactic(auto, using(searching::proofs::StepLaws::steps), unfolding(crate::specs::RegulaFalsi::pulled_in))]
fn pulled_in(a: &[f64], stop: StopRule, s: Illinois, x: f64, p: Progress) -> Turn<Illinois>
    requires { Room 2 p }
    ensures { viewed result ≡ play tallied (oracle a.now) (pulled_in stop s x) p }
{
    let placed = searching::pull(s.left.at.x, s.right.at.x, x, p);
    landed(a, stop, s, placed.x, placed.progress)
}

// ---- the search

// The method's steps, as the loop of searches takes them.
struct Steps;

impl Search for Steps {
    type State = Illinois;

    ghost turn = { turn_from };

    // One step: the candidate is refused if it isn't finite, and else pulled.
    #[tactic(auto, using(searching::proofs::StepLaws::steps), unfolding(crate::specs::RegulaFalsi::turn_from))]
    fn take_turn(a: &[f64], stop: StopRule, s: Illinois, p: Progress) -> Turn<Illinois> {
        let x = candidate(s);
        if doubles::is_finite(x) {
            pulled_in(a, stop, s, x, p)
        } else {
            Turn::refused(9, p)
        }
    }
}

// A root by the Illinois form of regula falsi between two points: the opening, and the steps from there.
// Two lines in each method, since their openings take different things.
pub fn find_root(a: &[f64], stop: StopRule, from: f64, to: f64) -> Outcome
    requires { stop.limit ≤ greatest_limit }
    ensures { result ≡ regula_falsi a.now stop from to }
{
    let opened = opening(a, stop, from, to, Progress::fresh());
    searching::finished::<Steps>(a, stop, opened, stop.turns())
}
