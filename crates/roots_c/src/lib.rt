// The search as C calls it: numbers and buffers go in, a kind comes back, and the buffers hold the rest.

#![tactic(auto)]

ghost use Rattle.std.specs.Prelude.{take, ◌≡◌};
ghost use Rattle.records.specs.Records.{padded, progress_of};
ghost use Rattle.roots_c.specs.Flat.{chosen_by, outcome_of, flat_kind, flat_numbers, flat_tallies, version};
ghost use Rattle.roots_c.specs.FlatRecords.{answer_from, bytes_in, flat_bytes, flat_verdict, left_for, mark_from, points_of, read_coefficients, read_numbers, read_points, read_refusal, read_tallies, read_words, refusal_of, verdict_for, words_of};

use numerical::{Answer, Derivatives, Outcome, Progress, Steps, Tally, Values};
use records::{Reading, Record, Refusal};
use roots::Method;
use simple_convergency::Tolerances;

// The C interface (include/roots.h) fixes what the functions that roots_c_c exports take and return: each number and each buffer
// by itself, and methods, kinds and refusals as numbers.

// The method of a number, with its starts.
#[tactic(auto, unfolding(crate::specs::Flat::chosen_by, records::specs::Records::between))]
fn chosen_by(number: u64, first: f64, second: f64) -> Option<Method>
    ensures { result ≡ chosen_by number first second }
{
    match number {
        1..=5 => Some(Method::numbered(number as u8, first, second)),
        _ => None,
    }
}

// The search's outcome, or for an unknown method a refusal of no number.
fn outcome_of(a: &[f64], chosen: Option<Method>, tolerances: Tolerances, limit: u64) -> Outcome
    ensures { result ≡ outcome_of a.now chosen tolerances limit }
{
    match chosen {
        Some(method) => roots::search(a, method, tolerances, limit),
        None => Outcome::refused_at_once(0),
    }
}

// A search by the method's number; value and point are the tolerances. The kind is 0 by value, 1 by width, else 10 plus the
// refusal's number.
pub fn roots_search(
    coefficients: &[f64],
    method: u64,
    first: f64,
    second: f64,
    value: f64,
    point: f64,
    limit: u64,
    numbers: &mut [f64; 3],
    tallies: &mut [u64; 4],
) -> u64
    ensures kind { result ≡ flat_kind coefficients.now method first second value point limit }
    ensures numbers { numbers.new ≡ flat_numbers coefficients.now method first second value point limit }
    ensures tallies { tallies.new ≡ flat_tallies coefficients.now method first second value point limit }
{
    let chosen = chosen_by(method, first, second);
    let outcome = outcome_of(coefficients, chosen, Tolerances { value, point }, limit);
    *numbers = outcome.answer.numbers();
    *tallies = outcome.progress.counts();
    outcome.answer.kind()
}

// The version of this interface.
pub fn roots_version() -> u64
    ensures { result ≡ version }
{
    3
}

// ---- records

// At most 16 coefficients, and plus zero behind them: a record has its own copy, without a heap.
fn copied(a: &[f64]) -> [f64; 16]
    ensures { result ≡ padded (take 16 a.now) }
{
    let mut own = [0.0f64; 16];
    let n = own.len().min(a.len());
    rows::copy(&a[..n], &mut own);
    own
}

// The answer of a kind with its numbers. What is no kind becomes a refusal that no record has. Not one with `answer_of` of records,
// which is of kinds alone and says so. The numbers are apart, as in the definition, on which those of a record written from C rest.
#[tactic(auto, unfolding(crate::specs::FlatRecords::answer_from, records::specs::Records::between))]
fn answer_from(kind: u64, x: f64, y: f64, z: f64) -> Answer
    ensures { result ≡ answer_from kind x y z }
{
    match kind {
        0 => Answer::ByValue { root: x, value: y },
        1 => Answer::ByWidth {
            root: x,
            p: y,
            q: z,
        },
        16..=19 => Answer::Refused((kind - 10) as u8),
        _ => Answer::Refused(0),
    }
}

// A mark, or 3, which no record has.
#[tactic(auto, unfolding(crate::specs::FlatRecords::mark_from))]
fn mark_from(mark: u64) -> u8
    ensures { result ≡ mark_from mark }
{
    mark.min(3) as u8
}

// The fields by name, and so where records read them, each by a read of its own: one for both would be no shorter than the fields.
fn progress_from(steps: u64, values: u64, derivatives: u64, mark: u64) -> Progress
    ensures { result ≡ progress_of steps values derivatives (mark_from mark) }
{
    Progress {
        tally: Tally {
            steps: Steps(steps),
            values: Values(values),
            derivatives: Derivatives(derivatives),
        },
        mark: mark_from(mark),
    }
}

fn refusal_of(written: Result<usize, Refusal>) -> u64
    ensures { result ≡ refusal_of written }
{
    match written {
        Ok(_) => 0,
        Err(refusal) => u64::from(refusal.number()),
    }
}

// Writes the record, unless the method is unknown. The parts are apart, as C hands them over, and become a Record here.
fn write_chosen(
    record_kind: u64,
    chosen: Option<Method>,
    a: &[f64],
    tolerances: Tolerances,
    limit: u64,
    outcome: Outcome,
    bytes: &mut [u8],
) -> Result<usize, Refusal>
    ensures verdict { result ≡ verdict_for record_kind a.now tolerances limit outcome bytes.old chosen }
    ensures bytes { bytes.new ≡ left_for record_kind a.now tolerances limit outcome bytes.old chosen }
{
    let Some(method) = chosen else {
        return Err(Refusal::NoRecord);
    };
    let content = Record {
        kind: record_kind,
        coefficients: copied(a),
        count: a.len(),
        method,
        tolerances,
        limit,
        outcome,
    };
    records::write(content, bytes)
}

// Writes the record of a call and its answer, as roots_search took and gave them, as a record of a kind. It returns 0, 10
// or 11.
pub fn roots_record_write(
    record_kind: u64,
    coefficients: &[f64],
    method: u64,
    first: f64,
    second: f64,
    value: f64,
    point: f64,
    limit: u64,
    kind: u64,
    numbers: &[f64; 3],
    tallies: &[u64; 4],
    bytes: &mut [u8],
    length: &mut u64,
) -> u64
    ensures refusal { result ≡ refusal_of (flat_verdict record_kind coefficients.now method first second value point limit kind numbers.now tallies.now bytes.old) }
    ensures bytes { bytes.new ≡ flat_bytes record_kind coefficients.now method first second value point limit kind numbers.now tallies.now bytes.old }
    ensures length { length.new ≡ bytes_in (flat_verdict record_kind coefficients.now method first second value point limit kind numbers.now tallies.now bytes.old) }
{
    let answer = answer_from(kind, numbers[0], numbers[1], numbers[2]);
    let progress = progress_from(tallies[0], tallies[1], tallies[2], tallies[3]);
    let outcome = Outcome { answer, progress };
    let chosen = chosen_by(method, first, second);
    let tolerances = Tolerances { value, point };
    let written = write_chosen(
        record_kind,
        chosen,
        coefficients,
        tolerances,
        limit,
        outcome,
        bytes,
    );
    *length = written.unwrap_or(0) as u64;
    refusal_of(written)
}

// The starts, the second of them zero where the method has one, and the tolerances.
fn points_of(method: Method, tolerances: Tolerances) -> [f64; 4]
    ensures { result ≡ points_of method tolerances }
{
    let [first, second] = method.starts();
    [first, second, tolerances.value, tolerances.point]
}

// The length, the method, the count, the limit, the answer's kind and the record's.
fn words_of(reading: Reading) -> [u64; 6]
    ensures { result ≡ words_of (Ok reading) }
{
    let content = reading.content;
    [
        reading.length as u64,
        u64::from(content.method.number()),
        content.count as u64,
        content.limit,
        content.outcome.answer.kind(),
        content.kind,
    ]
}

// Reads the record at the start of the bytes. It returns 0 or 11, and then all that it leaves is zero.
pub fn roots_record_read(
    bytes: &[u8],
    coefficients: &mut [f64; 16],
    points: &mut [f64; 4],
    numbers: &mut [f64; 3],
    tallies: &mut [u64; 4],
    words: &mut [u64; 6],
) -> u64
    ensures refusal { result ≡ read_refusal bytes.now }
    ensures coefficients { coefficients.new ≡ read_coefficients bytes.now }
    ensures points { points.new ≡ read_points bytes.now }
    ensures numbers { numbers.new ≡ read_numbers bytes.now }
    ensures tallies { tallies.new ≡ read_tallies bytes.now }
    ensures words { words.new ≡ read_words bytes.now }
{
    match records::read(bytes) {
        Ok(reading) => {
            let content = reading.content;
            let own = content.coefficients;
            *coefficients = own;
            *points = points_of(content.method, content.tolerances);
            *numbers = content.outcome.answer.numbers();
            *tallies = content.outcome.progress.counts();
            *words = words_of(reading);
            0
        }
        Err(refusal) => {
            *coefficients = [0.0; 16];
            *points = [0.0; 4];
            *numbers = [0.0; 3];
            *tallies = [0; 4];
            *words = [0; 6];
            u64::from(refusal.number())
        }
    }
}
