// The language of searches is in specs/, and its laws are in proofs/. The code is what the methods share: a turn and the loop of turns, the two added rules, and starts in order.

#![tactic(auto)]

ghost use Rattle.std.specs.Prelude.{◌≡◌, ◌≤◌};
ghost use Rattle.numerical.specs.Tallies.{Room};
ghost use Rattle.numerical.specs.declared.Answer.TheVariants.{ByValue, Refused};
ghost use Rattle.simple_convergency.specs.Stop.{greatest_limit};
ghost use Rattle.simple_convergency.specs.declared.StopRule.{StopRule};
ghost use Rattle.searching.specs.Bounds.{Within};
ghost use Rattle.searching.specs.Loops.{Ample, closed_of, run_of};
ghost use Rattle.searching.specs.Programs.{Prog, Turned, ended, next, oracle, play, tallied};
ghost use Rattle.searching.specs.Rules.{placed_in, alike_by, in_order};
ghost use Rattle.searching.specs.Turns.{viewed};

use numerical::{Answer, Outcome, Progress, Sample};
use simple_convergency::StopRule;
use std::ops::ControlFlow;

// ---- turns

// A turn of a search: it breaks off with an answer or continues from the next state, with what the run has done after it.
#[derive(Clone, Copy)]
pub struct Turn<S> {
    pub leads: ControlFlow<Answer, S>,
    pub progress: Progress,
}

impl<S> Turn<S> {
    // The search ends here.
    pub fn ended(answer: Answer, progress: Progress) -> Turn<S>
        ensures { viewed result ≡ (ended answer, progress) }
    {
        Turn {
            leads: ControlFlow::Break(answer),
            progress,
        }
    }

    // The search is refused with this number: a plain one, as `Answer::Refused` has it.
    pub fn refused(number: u8, progress: Progress) -> Turn<S>
        ensures { viewed result ≡ (ended (Refused number), progress) }
    {
        Turn::ended(Answer::Refused(number), progress)
    }

    // The sample is a root by its value.
    pub fn by_value(sample: Sample, progress: Progress) -> Turn<S>
        ensures { viewed result ≡ (ended (ByValue sample.x sample.y), progress) }
    {
        let root = sample.x;
        let value = sample.y;
        Turn::ended(Answer::ByValue { root, value }, progress)
    }

    // The search goes on from this state.
    pub fn next(state: S, progress: Progress) -> Turn<S>
        ensures { viewed result ≡ (next state, progress) }
    {
        Turn {
            leads: ControlFlow::Continue(state),
            progress,
        }
    }
}

// ---- the loop of turns

// A method: its state, and one turn of it. In a struct with the reference, clauses would say `lent.entry.a.now` for `a.now`: no plainer.
// The steps of a turn are each method's own, also where two are alike: each evaluation is taken apart where it is made.
pub trait Search {
    type State: Copy;

    // One turn as the definition has it.
    ghost turn: { StopRule → Self.State → Prog (Turned Self.State) };

    fn take_turn(
        a: &[f64],
        stop: StopRule,
        state: Self::State,
        progress: Progress,
    ) -> Turn<Self::State>
        requires { Room 3 progress }
        ensures { viewed result ≡ play tallied (oracle a.now) (turn stop state) progress };
}

// From a state on: a turn at a time, until an end or the limit. A turn adds at most three to a tally.
fn searched<M: Search>(
    a: &[f64],
    stop: StopRule,
    begun: M::State,
    progress: Progress,
    most: u64,
) -> Outcome
    requires in_range { (most ≤ greatest_limit) × Ample progress }
    requires small { (state : M.State) → Within 3 3 3 (M.turn stop state) }
    ensures { result ≡ run_of a.now (M.turn stop) most begun progress }
{
    let mut state = begun;
    let mut so_far = progress;
    for _ in 0..most {
        let turn = M::take_turn(a, stop, state, so_far);
        so_far = turn.progress;
        match turn.leads {
            ControlFlow::Break(answer) => return Outcome {
                answer,
                progress: so_far,
            },
            ControlFlow::Continue(next) => state = next,
        }
    }
    Outcome {
        answer: Answer::Refused(8),
        progress: so_far,
    }
}

// From what the opening came to: its answer, or at most so many turns from its state.
pub fn finished<M: Search>(a: &[f64], stop: StopRule, opened: Turn<M::State>, most: u64) -> Outcome
    requires in_range { (most ≤ greatest_limit) × Ample opened.progress }
    requires small { (state : M.State) → Within 3 3 3 (M.turn stop state) }
    ensures { result ≡ closed_of a.now (M.turn stop) most (viewed opened) }
{
    let progress = opened.progress;
    match opened.leads {
        ControlFlow::Break(answer) => Outcome { answer, progress },
        ControlFlow::Continue(begun) => searched::<M>(a, stop, begun, progress, most),
    }
}

// ---- the two added rules that several methods follow, and starts in order

// A point in the pair, and what the run has done before it is used.
#[derive(Clone, Copy)]
pub struct Placed {
    pub x: f64,
    pub progress: Progress,
}

// What a test of signs decided, and what the run has done after it.
// No Option: what the run has done is told under both decisions.
#[derive(Clone, Copy)]
pub struct Decided {
    pub decision: bool,
    pub progress: Progress,
}

// Rule 2: the point x, or the nearer end of u, v where it lies outside, with the mark of that.
pub fn pull(u: f64, v: f64, x: f64, progress: Progress) -> Placed
    ensures { result ≡ placed_in u v x progress }
{
    if doubles::is_outside(u, v, x) {
        Placed {
            x: doubles::pulled(u, v, x),
            progress: progress.ruled(2, true),
        }
    } else {
        Placed { x, progress }
    }
}

// Rule 1: whether both values are above zero or both below. The signs decide, and the product the mark alone: it is set where the product says otherwise.
pub fn alike(p: Sample, q: Sample, progress: Progress) -> Decided
    ensures { result ≡ alike_by p q progress }
{
    let same = doubles::same_sign(p.y, q.y);
    let above = doubles::is_above(p.y * q.y);
    Decided {
        decision: same,
        progress: progress.ruled(1, same != above),
    }
}

// Two starts in order.
#[derive(Clone, Copy)]
pub struct Starts {
    pub first: f64,
    pub second: f64,
}

// The smaller start comes first, and equal ones keep their order.
pub fn in_order(from: f64, to: f64) -> Starts
    ensures { result ≡ in_order from to }
{
    if from > to {
        Starts {
            first: to,
            second: from,
        }
    } else {
        Starts {
            first: from,
            second: to,
        }
    }
}
