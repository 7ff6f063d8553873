// Samples, intervals, tallies, the mark and the answer of a search.

#![tactic(auto)]

ghost use Rattle.std.specs.Prelude.{◌≡◌};
ghost use Rattle.numerical.specs.Tallies.{fresh, valued_of, sloped_of, stepped_of, ruled_of, Room};
ghost use Rattle.numerical.specs.Answers.{counts_of, kind_of, numbers_of, padded, refused_at_once};
ghost use Rattle.numerical.specs.Chords.{chord_of};
ghost use Rattle.numerical.specs.Middle.{at_least, at_most, crosses, middle_of};

// A point and the computed value there.
#[derive(Clone, Copy)]
pub struct Sample {
    pub x: f64,
    pub y: f64,
}

// The pair between two samples, these included.
#[derive(Clone, Copy)]
pub struct Interval {
    pub begin: Sample,
    pub end: Sample,
}

// Steps and evaluations are separate tallies: each has a type of its own.
#[derive(Clone, Copy)]
pub struct Steps(pub u64);

#[derive(Clone, Copy)]
pub struct Values(pub u64);

#[derive(Clone, Copy)]
pub struct Derivatives(pub u64);

#[derive(Clone, Copy)]
pub struct Tally {
    pub steps: Steps,
    pub values: Values,
    pub derivatives: Derivatives,
}

// What a run has done so far: its tallies and its mark, the number of an added rule, which `records::write` takes from outside as any number.
#[derive(Clone, Copy)]
pub struct Progress {
    pub tally: Tally,
    pub mark: u8,
}

#[derive(Clone, Copy)]
pub enum Answer {
    // The root and its computed value.
    ByValue { root: f64, value: f64 },
    // The root and the two points whose difference was small enough.
    ByWidth { root: f64, p: f64, q: f64 },
    // One of the nine refusals, by its number: `records::write` takes any number from outside and refuses what is none, so it is no enum.
    Refused(u8),
}

#[derive(Clone, Copy)]
pub struct Outcome {
    pub answer: Answer,
    pub progress: Progress,
}

impl Progress {
    pub fn fresh() -> Progress
        ensures { result ≡ fresh }
    {
        Progress {
            tally: Tally {
                steps: Steps(0),
                values: Values(0),
                derivatives: Derivatives(0),
            },
            mark: 0,
        }
    }

    // One value more. The room that is left is 3, 2 or 1 within a turn, so it is asked at each count and is no invariant of Progress.
    // This and the next two differ in what grows, a line each.
    pub fn valued(self) -> Progress
        requires { Room 1 self }
        ensures { result ≡ valued_of self }
    {
        let tally = Tally {
            values: Values(self.tally.values.0 + 1),
            ..self.tally
        };
        Progress { tally, ..self }
    }

    // One value and its derivative more.
    pub fn sloped(self) -> Progress
        requires { Room 1 self }
        ensures { result ≡ sloped_of self }
    {
        let tally = Tally {
            values: Values(self.tally.values.0 + 1),
            derivatives: Derivatives(self.tally.derivatives.0 + 1),
            ..self.tally
        };
        Progress { tally, ..self }
    }

    // One step more.
    pub fn stepped(self) -> Progress
        requires { Room 1 self }
        ensures { result ≡ stepped_of self }
    {
        let tally = Tally {
            steps: Steps(self.tally.steps.0 + 1),
            ..self.tally
        };
        Progress { tally, ..self }
    }

    // An added rule was applied, and departed or not: the mark is the first that departed.
    // A plain number, as the mark is: records take any from outside.
    pub fn ruled(self, rule: u8, departed: bool) -> Progress
        ensures { result ≡ ruled_of rule departed self }
    {
        if departed && self.mark == 0 {
            Progress { mark: rule, ..self }
        } else {
            self
        }
    }

    // Steps, values, derivatives and the mark.
    pub fn counts(self) -> [u64; 4]
        ensures { result ≡ counts_of self }
    {
        let t = self.tally;
        let mark = u64::from(self.mark);
        [t.steps.0, t.values.0, t.derivatives.0, mark]
    }
}

impl Answer {
    // 0 by value, 1 by width, otherwise 10 plus the refusal's number.
    pub fn kind(self) -> u64
        ensures { result ≡ kind_of self }
    {
        match self {
            Answer::ByValue { .. } => 0,
            Answer::ByWidth { .. } => 1,
            Answer::Refused(number) => 10 + u64::from(number),
        }
    }

    // Its numbers, and +0.0 up to three.
    pub fn numbers(self) -> [f64; 3]
        ensures { result ≡ padded (numbers_of self) }
    {
        match self {
            Answer::ByValue { root, value } => [root, value, 0.0],
            Answer::ByWidth { root, p, q } => [root, p, q],
            Answer::Refused(_) => [0.0, 0.0, 0.0],
        }
    }
}

impl Outcome {
    // A refusal before any evaluation carries all zero. A plain number, as in Refused: C is told 0 where it names no method.
    pub fn refused_at_once(number: u8) -> Outcome
        ensures { result ≡ refused_at_once number }
    {
        Outcome {
            answer: Answer::Refused(number),
            progress: Progress::fresh(),
        }
    }
}

impl Sample {
    // Where the line from this sample to another crosses zero, by the other's own point: Brent's method and the secant method
    // both go on from there.
    pub fn chord_to(self, other: Sample) -> f64
        ensures { result ≡ chord_of self other }
    {
        other.x - other.y * (other.x - self.x) / (other.y - self.y)
    }
}

// The shift, or a 27th of the width where it is less.
fn at_least(width: f64, shift: f64) -> f64
    ensures { result ≡ at_least width shift }
{
    if shift < width / 27.0 {
        width / 27.0
    } else {
        shift
    }
}

// The shift, or 26 27ths of the width where it is more.
fn at_most(width: f64, shift: f64) -> f64
    ensures { result ≡ at_most width shift }
{
    if shift > width * 26.0 / 27.0 {
        width * 26.0 / 27.0
    } else {
        shift
    }
}

impl Interval {
    // Whether the values differ and are not of the same sign.
    pub fn crosses(self) -> bool
        ensures { result ≡ crosses self }
    {
        if doubles::same_sign(self.begin.y, self.end.y) {
            return false;
        }
        self.begin.y != self.end.y
    }

    // A point for narrowing the interval down: where the chord crosses zero, held away from the ends, or the half.
    pub fn middle(self) -> f64
        ensures { result ≡ middle_of self }
    {
        if self.crosses() {
            let width = self.end.x - self.begin.x;
            let shift = -self.begin.y * width / (self.end.y - self.begin.y);
            self.begin.x + at_most(width, at_least(width, shift))
        } else {
            (self.begin.x + self.end.x) / 2.0
        }
    }
}
