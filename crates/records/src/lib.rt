// A record of a search: its call and its answer as a row of numbers, written into bytes and read from them.

#![tactic(auto)]

ghost use Rattle.std.specs.Prelude.{ℕ, Bool, true, ◌*◌, ◌+◌, ◌≤◌, length, [], ◌++◌, ◌∷◌, ◌≡◌};
ghost use Rattle.records.specs.Drafts.{Puts};
ghost use Rattle.records.specs.Parts.{Decides, Filled, TookIf, TookPart, answer_layout, call_part, double_part, head_part, progress_layout, rule_part, whole_of};
ghost use Rattle.records.specs.Records.{answer_of, answer_row, between, bits_of, call_row, head_row, holds_both, is_double, is_kind, is_tolerance, left_by, numbers_for, own_count, reading_of, refusal_number, row_of, rule_row, tolerances_for, tolerances_row, written_to};
ghost use Rattle.roots.specs.Methods.{method_number};

use numerical::{Answer, Derivatives, Outcome, Progress, Steps, Tally, Values};
use roots::Method;
use rows::Taken;
use simple_convergency::{StopRule, Tolerances};

// What a record holds: its kind, which says how it is laid out, a call with its own copy of the coefficients, of which the
// first `count` are its own, and its answer.
// The kind and the refusal in the answer are plain numbers: `write` takes any, and `written_to` says which are no record.
// The coefficients are an array with its count: a record has a copy of its own, in fixed memory with no heap.
#[derive(Clone, Copy)]
pub struct Record {
    pub kind: u64,
    pub coefficients: [f64; 16],
    pub count: usize,
    pub method: Method,
    pub tolerances: Tolerances,
    pub limit: u64,
    pub outcome: Outcome,
}

impl Record {
    // The kind that is written from now on.
    pub const NEWEST: u64 = 2;

    // No record has more bytes.
    pub const LONGEST: usize = 268;

    // How many of the coefficients are its own. Where the count is above 16 all are, and no record is written of it.
    pub fn own_count(&self) -> usize
        ensures { result ≡ own_count self.now }
    {
        self.count.min(StopRule::MOST_COEFFICIENTS)
    }
}

// Why nothing was read or written: the buffer is too short for the record, or there is no record.
#[derive(Clone, Copy, Debug, PartialEq, Eq)]
pub enum Refusal {
    NoRoom,
    NoRecord,
}

impl Refusal {
    // Its number among the refusals: a match, as for those of a search, of which one has data.
    pub fn number(self) -> u8
        ensures { result ≡ refusal_number self }
    {
        match self {
            Refusal::NoRoom => 10,
            Refusal::NoRecord => 11,
        }
    }
}

// A record that was read, and how many bytes it takes.
#[derive(Clone, Copy)]
pub struct Reading {
    pub length: usize,
    pub content: Record,
}

// ---- reading: each part tells what it holds and where the next one begins
// The bytes and an index are passed on, and no reader that moves: so a part is a function of them, and its contract speaks of
// no state before and after.

// The kind, and the number of the method. No enum for the kind: `Record.kind` and `Method::numbered` take every number, and it
// would be turned back into its number where a record is made of it.
#[derive(Clone, Copy)]
struct Head {
    kind: u64,
    method: u8,
}

// The method with its starts, the tolerances and the limit. Not in the call of a line too: there `call.tolerances` would become
// `call.rule.tolerances`, no plainer.
#[derive(Clone, Copy)]
struct Rule {
    method: Method,
    tolerances: Tolerances,
    limit: u64,
}

// A call: of the coefficients the first `count` were read, and zeros stand behind them, in fixed memory with no heap. Not one with
// the call of a line, which lends its coefficients.
#[derive(Clone, Copy)]
struct Call {
    kind: u64,
    coefficients: [f64; 16],
    count: usize,
    rule: Rule,
}

// The kind of an answer: 0, 1 or 16 to 19, a number here as it stands in the bytes: an enum would be one match more, before those
// of `number_count` and `answer_of`.
#[tactic(auto, unfolding(crate::specs::Records::is_kind, crate::specs::Records::between))]
fn is_kind(n: u64) -> bool
    ensures { result ≡ is_kind n }
{
    matches!(n, 0 | 1 | 16..=19)
}

// The bits of a double that is finite.
fn is_double(n: u64) -> bool
    ensures { result ≡ is_double n }
{
    doubles::is_finite(doubles::from_pattern(n))
}

// The bits of a double that refusal 4 lets pass.
#[tactic(auto, unfolding(crate::specs::Records::is_tolerance, simple_convergency::specs::Stop::bad_tolerance))]
fn is_tolerance(n: u64) -> bool
    ensures { result ≡ is_tolerance n }
{
    let x = doubles::from_pattern(n);
    doubles::is_finite(x) && !(x < StopRule::LEAST_TOLERANCE)
}

// A number that passes a test.
fn take_if<F: Fn(u64) -> bool>(s: &[u8], at: usize, is_right: F) -> Option<Taken<u64>>
    requires { F.IsAlwaysCallable is_right }
    ensures { (ok : ℕ → Bool) → Decides (F.post is_right) ok → TookIf ok s.now at result }
{
    let taken = rows::take(s, at)?;
    is_right(taken.value).then_some(taken)
}

// A number from `least` to `most`.
fn take_within(s: &[u8], at: usize, least: u64, most: u64) -> Option<Taken<u64>>
    ensures { TookIf (between least most) s.now at result }
{
    take_if(s, at, |n| least <= n && n <= most)
}

// The double of bits that pass a test.
fn take_double<F: Fn(u64) -> bool>(s: &[u8], at: usize, is_right: F) -> Option<Taken<f64>>
    requires { F.IsAlwaysCallable is_right }
    ensures { (ok : ℕ → Bool) → Decides (F.post is_right) ok → TookPart (double_part ok) s.now at result }
{
    let bits = take_if(s, at, is_right)?;
    Some(Taken {
        value: doubles::from_pattern(bits.value),
        next: bits.next,
    })
}

// Finite doubles, as many as a has room for.
fn take_doubles(s: &[u8], at: usize, a: &mut [f64]) -> Option<usize>
    requires { at ≤ length s.now }
    ensures { Filled (length a.old) s.now at a.new result }
{
    let mut p = at;
    for x in a.iter_mut() {
        let taken = take_double(s, p, is_double)?;
        *x = taken.value;
        p = taken.next;
    }
    Some(p)
}

// The head. A record of kind 1 begins with its method, one of kind 2 with 0 and 2.
fn read_head(s: &[u8]) -> Option<Taken<Head>>
    ensures { TookPart head_part s.now 0 result }
{
    let first = take_within(s, 0, 0, 5)?;
    if first.value != 0 {
        let head = Head {
            kind: 1,
            method: first.value as u8,
        };
        return Some(Taken {
            value: head,
            next: first.next,
        });
    }
    let kind = take_within(s, first.next, 2, 2)?;
    let method = take_within(s, kind.next, 1, 5)?;
    let head = Head {
        kind: kind.value,
        method: method.value as u8,
    };
    Some(Taken {
        value: head,
        next: method.next,
    })
}

// The tolerances: kind 1 has one eps for both, kind 2 that of values and then that of points.
fn read_tolerances(s: &[u8], at: usize, kind: u64) -> Option<Taken<Tolerances>>
    ensures { TookPart (tolerances_for kind) s.now at result }
{
    let of_values = take_double(s, at, is_tolerance)?;
    if kind == 1 {
        return Some(Taken {
            value: Tolerances::both(of_values.value),
            next: of_values.next,
        });
    }
    let of_points = take_double(s, of_values.next, is_tolerance)?;
    let tolerances = Tolerances {
        value: of_values.value,
        point: of_points.value,
    };
    Some(Taken {
        value: tolerances,
        next: of_points.next,
    })
}

// The starts of the head's method, the tolerances and the limit.
fn read_rule(s: &[u8], at: usize, head: Head) -> Option<Taken<Rule>>
    requires { at ≤ length s.now }
    ensures { TookPart (rule_part head.kind head.method) s.now at result }
{
    let mut starts = [0.0f64; 2];
    let k = Method::start_count(head.method);
    let p = take_doubles(s, at, &mut starts[..k])?;
    let tolerances = read_tolerances(s, p, head.kind)?;
    let limit = take_within(s, tolerances.next, 0, StopRule::GREATEST_LIMIT)?;
    let rule = Rule {
        method: Method::numbered(head.method, starts[0], starts[1]),
        tolerances: tolerances.value,
        limit: limit.value,
    };
    Some(Taken {
        value: rule,
        next: limit.next,
    })
}

fn read_call(s: &[u8]) -> Option<Taken<Call>>
    ensures { TookPart call_part s.now 0 result }
{
    let head = read_head(s)?;
    let many = take_within(s, head.next, 1, 16)?;
    let count = many.value as usize;
    let mut coefficients = [0.0f64; 16];
    let p = take_doubles(s, many.next, &mut coefficients[..count])?;
    let rule = read_rule(s, p, head.value)?;
    let call = Call {
        kind: head.value.kind,
        coefficients,
        count,
        rule: rule.value,
    };
    Some(Taken {
        value: call,
        next: rule.next,
    })
}

// How many numbers an answer of a kind has.
#[tactic(auto, unfolding(crate::specs::Records::numbers_for))]
fn number_count(kind: u64) -> usize
    ensures { (result ≡ numbers_for kind) × (result ≤ 3) }
{
    match kind {
        0 => 2,
        1 => 3,
        _ => 0,
    }
}

// The answer of a kind, from its numbers.
#[tactic(auto, unfolding(crate::specs::Records::answer_of, crate::specs::Records::is_kind, crate::specs::Records::between))]
fn answer_of(kind: u64, numbers: [f64; 3]) -> Answer
    requires { is_kind kind ≡ true }
    ensures { result ≡ answer_of kind numbers }
{
    let [root, p, q] = numbers;
    match kind {
        0 => Answer::ByValue { root, value: p },
        1 => Answer::ByWidth { root, p, q },
        _ => Answer::Refused((kind - 10) as u8),
    }
}

// The kind of an answer and its numbers.
fn read_answer(s: &[u8], at: usize) -> Option<Taken<Answer>>
    ensures { TookPart answer_layout s.now at result }
{
    let kind = take_if(s, at, is_kind)?;
    let mut numbers = [0.0f64; 3];
    let next = take_doubles(s, kind.next, &mut numbers[..number_count(kind.value)])?;
    Some(Taken {
        value: answer_of(kind.value, numbers),
        next,
    })
}

// The tallies and the mark.
fn read_progress(s: &[u8], at: usize) -> Option<Taken<Progress>>
    ensures { TookPart progress_layout s.now at result }
{
    let steps = rows::take(s, at)?;
    let values = rows::take(s, steps.next)?;
    let derivatives = rows::take(s, values.next)?;
    let mark = take_within(s, derivatives.next, 0, 2)?;
    let tally = Tally {
        steps: Steps(steps.value),
        values: Values(values.value),
        derivatives: Derivatives(derivatives.value),
    };
    let progress = Progress {
        tally,
        mark: mark.value as u8,
    };
    Some(Taken {
        value: progress,
        next: mark.next,
    })
}

// The record at the start of the bytes; what follows it is not looked at.
pub fn read(s: &[u8]) -> Result<Reading, Refusal>
    ensures { result ≡ reading_of s.now }
{
    let call = read_call(s).ok_or(Refusal::NoRecord)?;
    let answer = read_answer(s, call.next).ok_or(Refusal::NoRecord)?;
    let progress = read_progress(s, answer.next).ok_or(Refusal::NoRecord)?;
    let rule = call.value.rule;
    let coefficients = call.value.coefficients;
    let content = Record {
        kind: call.value.kind,
        coefficients,
        count: call.value.count,
        method: rule.method,
        tolerances: rule.tolerances,
        limit: rule.limit,
        outcome: Outcome {
            answer: answer.value,
            progress: progress.value,
        },
    };
    Ok(Reading {
        length: progress.next,
        content,
    })
}

// ---- writing: each part is put behind the one before

// The bytes of a record while they are made, of which the first `length` are put: an array with its length, in fixed memory
// with no heap, with room for 33 numbers of ten bytes. Each part asks for its own room, and no invariant does: they differ in it.
#[derive(Drop)]
struct Draft {
    bytes: [u8; 330],
    length: usize,
}

impl Draft {
    // `rows::put` as what each part calls: here alone bytes become a row and its room.
    fn put_number(&mut self, n: u64)
        requires { self.old.length + 10 ≤ 330 }
        ensures { Puts 10 (n ∷ []) self.old self.new }
    {
        self.length = rows::put(n, &mut self.bytes, self.length);
    }

    // Numbers, one behind the other.
    fn put_numbers(&mut self, row: &[u64])
        requires { self.old.length + 10 * length row.now ≤ 330 }
        ensures { Puts (10 * length row.now) row.now self.old self.new }
    {
        for n in row {
            self.put_number(*n);
        }
    }

    // Doubles, finite or not.
    fn put_doubles(&mut self, a: &[f64])
        requires { self.old.length + 10 * length a.now ≤ 330 }
        ensures { Puts (10 * length a.now) (bits_of a.now) self.old self.new }
    {
        for x in a {
            self.put_number(doubles::pattern(*x));
        }
    }

    // The kind, and the method's number. Kind 1 begins with the method, another with 0 and the kind.
    fn put_head(&mut self, kind: u64, method: Method)
        requires { self.old.length + 30 ≤ 330 }
        ensures { Puts 30 (head_row kind ++ (method_number method ∷ [])) self.old self.new }
    {
        let number = u64::from(method.number());
        if kind == 1 {
            return self.put_number(number);
        }
        self.put_numbers(&[0, kind, number]);
    }

    // Kind 1 has one tolerance; another has that of values and then that of points.
    fn put_tolerances(&mut self, kind: u64, tolerances: Tolerances)
        requires { self.old.length + 20 ≤ 330 }
        ensures { Puts 20 (tolerances_row kind tolerances) self.old self.new }
    {
        if kind == 1 {
            return self.put_doubles(&[tolerances.value]);
        }
        self.put_doubles(&[tolerances.value, tolerances.point]);
    }

    // The starts, the tolerances and the limit. Not one with that of record_text: in kind 1 a row has one tolerance.
    fn put_rule(&mut self, content: &Record)
        requires { self.old.length + 50 ≤ 330 }
        ensures { Puts 50 (rule_row content.now.kind content.now.method content.now.tolerances content.now.limit) self.old self.new }
    {
        let starts = content.method.starts();
        let count = Method::start_count(content.method.number());
        self.put_doubles(&starts[..count]);
        self.put_tolerances(content.kind, content.tolerances);
        self.put_number(content.limit);
    }

    // The head, the coefficients with their count, and the rest of the call.
    fn put_call(&mut self, content: &Record)
        requires { self.old.length + 250 ≤ 330 }
        ensures { Puts 250 (call_row content.now) self.old self.new }
    {
        self.put_head(content.kind, content.method);
        self.put_number(content.count as u64);
        self.put_doubles(&content.coefficients[..content.own_count()]);
        self.put_rule(content);
    }

    // The kind of an answer and its numbers.
    fn put_answer(&mut self, answer: Answer)
        requires { self.old.length + 40 ≤ 330 }
        ensures { Puts 40 (answer_row answer) self.old self.new }
    {
        let kind = answer.kind();
        self.put_number(kind);
        let numbers = answer.numbers();
        self.put_doubles(&numbers[..number_count(kind)]);
    }

    // The whole row, right or not, into an empty draft: then there is room for it.
    fn put_record(&mut self, content: &Record)
        requires { self.old.length + 330 ≤ 330 }
        ensures { Puts 330 (row_of content.now) self.old self.new }
    {
        self.put_call(content);
        self.put_answer(content.outcome.answer);
        self.put_numbers(&content.outcome.progress.counts());
    }
}

// Whether the bytes are one record, with nothing behind it.
fn is_whole(s: &[u8]) -> bool
    ensures { result ≡ whole_of s.now }
{
    match read(s) {
        Ok(reading) => reading.length == s.len(),
        Err(_) => false,
    }
}

// Whether a record of the kind has room for both tolerances: in kind 1 they must be of the same bits.
#[tactic(auto, unfolding(crate::specs::Records::holds_both))]
fn holds_both(kind: u64, tolerances: Tolerances) -> bool
    ensures { result ≡ holds_both kind tolerances }
{
    kind != 1 || doubles::pattern(tolerances.value) == doubles::pattern(tolerances.point)
}

// Writes a record to the start of the buffer. Its row is made aside first, and is a record exactly if it reads back whole:
// so nothing is written before 11 and then 10 are ruled out.
pub fn write(content: Record, out: &mut [u8]) -> Result<usize, Refusal>
    ensures verdict { result ≡ written_to content (length out.old) }
    ensures bytes { out.new ≡ left_by content out.old (written_to content (length out.old)) }
{
    if !holds_both(content.kind, content.tolerances) {
        return Err(Refusal::NoRecord);
    }
    let mut draft = Draft {
        bytes: [0; 330],
        length: 0,
    };
    draft.put_record(&content);
    let n = draft.length;
    if !is_whole(&draft.bytes[..n]) {
        return Err(Refusal::NoRecord);
    }
    if out.len() < n {
        return Err(Refusal::NoRoom);
    }
    rows::copy(&draft.bytes[..n], out);
    Ok(n)
}
