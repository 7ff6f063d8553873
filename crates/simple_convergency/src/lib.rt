// The stop rule: how close is close enough, and how many steps a search may take.

#![tactic(auto)]

ghost use Rattle.std.specs.Prelude.{◌≡◌};
ghost use Rattle.simple_convergency.specs.Stop.{bad_rule_number, bad_tolerance, one_eps, checked_of, found_at, flat_at, converged_at, turns_of};

// How close to zero a value must be, and how close to each other two points must be.
#[derive(Clone, Copy)]
pub struct Tolerances {
    pub value: f64,
    pub point: f64,
}

// The two tolerances, and the greatest number of steps. `found_at` and `turns_of` are of rules of any limit, and so are the theorems over them: 400 is no invariant
// here, and find_root asks for it, as docs/PROMISES.md says.
#[derive(Clone, Copy)]
pub struct StopRule {
    pub tolerances: Tolerances,
    pub limit: u64,
}

// Why a rule is refused.
#[derive(Clone, Copy, Debug, PartialEq, Eq)]
pub enum BadRule {
    Tolerance,
    Limit,
}

impl BadRule {
    // Its number among the refusals of a search. A match, as in `BadCall`, whose number this is where a rule is bad.
    pub fn number(self) -> u8
        ensures { result ≡ bad_rule_number self }
    {
        match self {
            BadRule::Tolerance => 4,
            BadRule::Limit => 5,
        }
    }
}

// Whether a tolerance is not finite or below the least.
fn is_bad_tolerance(tolerance: f64) -> bool
    ensures { result ≡ bad_tolerance tolerance }
{
    if doubles::is_finite(tolerance) {
        tolerance < StopRule::LEAST_TOLERANCE
    } else {
        true
    }
}

impl Tolerances {
    // One eps for both, as the Rust has it.
    pub fn both(eps: f64) -> Tolerances
        ensures { result ≡ one_eps eps }
    {
        Tolerances {
            value: eps,
            point: eps,
        }
    }
}

impl StopRule {
    // 2^-300
    pub const LEAST_TOLERANCE: f64 = 4.909093465297727e-91;

    pub const GREATEST_LIMIT: u64 = 400;

    pub const MOST_COEFFICIENTS: usize = 16;

    // The limit of a rule that is given as one eps alone.
    pub const PLAIN_LIMIT: u64 = 30;

    // The rule, or what is wrong with it: either tolerance comes before the limit.
    pub fn checked(tolerances: Tolerances, limit: u64) -> Result<StopRule, BadRule>
        ensures { result ≡ checked_of tolerances limit }
    {
        if is_bad_tolerance(tolerances.value) {
            return Err(BadRule::Tolerance);
        }
        if is_bad_tolerance(tolerances.point) {
            return Err(BadRule::Tolerance);
        }
        if StopRule::GREATEST_LIMIT < limit {
            return Err(BadRule::Limit);
        }
        Ok(StopRule { tolerances, limit })
    }

    // Whether the value y is close enough to zero.
    pub fn found(self, y: f64) -> bool
        ensures { result ≡ found_at self y }
    {
        doubles::abs(y) < self.tolerances.value
    }

    // Whether a derivative, or the difference of two values, is too close to zero to go on from.
    // As `found`, under its own name: the rules in docs/RULES.md speak of both, and of other numbers.
    pub fn flat(self, slope: f64) -> bool
        ensures { result ≡ flat_at self slope }
    {
        doubles::abs(slope) < self.tolerances.value
    }

    // Whether p and q are close enough to each other.
    pub fn converged(self, p: f64, q: f64) -> bool
        ensures { result ≡ converged_at self p q }
    {
        doubles::abs(p - q) < self.tolerances.point
    }

    // The larger of 1 and the limit: the limit is tested after a step.
    pub fn turns(self) -> u64
        ensures { result ≡ turns_of self }
    {
        self.limit.max(1)
    }
}
