// The smallest method: a walk by steps of 1 until a value is found. It is no part of the product: it shows the laws of searches in use.

#![tactic(auto)]

ghost use Rattle.std.specs.Prelude.{◌≡◌, List, ◌≤◌, Float};
ghost use Rattle.numerical.specs.Tallies.{Room};
ghost use Rattle.simple_convergency.specs.Stop.{greatest_limit};
ghost use Rattle.searching.specs.Programs.{oracle, play, tallied};
ghost use Rattle.searching.specs.Turns.{viewed};
ghost use Rattle.walking.specs.Walking.{seen_at, turn_from, walking};

use numerical::{Outcome, Progress, Sample};
use searching::{Search, Turn};
use simple_convergency::StopRule;

// The sample is found, or the walk goes one further.
#[tactic(auto, using(searching::proofs::StepLaws::steps), unfolding(crate::specs::Walking::seen_at))]
fn seen_at(stop: StopRule, s: Sample, p: Progress) -> Turn<f64>
    requires { Room 1 p }
    ensures { (cs : List Float) → viewed result ≡ play tallied (oracle cs) (seen_at stop s) p }
{
    if stop.found(s.y) {
        return Turn::by_value(s, p);
    }
    let x = s.x + 1.0;
    if doubles::is_finite(x) {
        Turn::next(x, p.stepped())
    } else {
        Turn::refused(9, p)
    }
}

// The walk's turns, as the loop of searches takes them.
struct Steps;

impl Search for Steps {
    type State = f64;

    ghost turn = { turn_from };

    // One turn evaluates the point at hand.
    #[tactic(auto, using(searching::proofs::StepLaws::steps), unfolding(crate::specs::Walking::turn_from))]
    fn take_turn(a: &[f64], stop: StopRule, x: f64, p: Progress) -> Turn<f64> {
        let counted = p.valued();
        let Some(s) = polynom::evaluate(a, x) else {
            return Turn::refused(9, counted);
        };
        seen_at(stop, s, counted)
    }
}

// The whole walk: its opening asks for nothing, so the turns are all.
pub fn walk(a: &[f64], stop: StopRule, x: f64) -> Outcome
    requires { stop.limit ≤ greatest_limit }
    ensures { result ≡ walking a.now stop x }
{
    let opened = Turn::next(x, Progress::fresh());
    searching::finished::<Steps>(a, stop, opened, stop.turns())
}
