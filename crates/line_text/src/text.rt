// Answers as text, put one after the other into a buffer.
ghost use Rattle.std.specs.Prelude.{◌≡◌, [], ◌∷◌, ◌+◌, ◌*◌, ◌≤◌, ◌<◌, length};
ghost use Rattle.numerical.specs.Answers.{numbers_of};
ghost use Rattle.line_text.specs.Texts.{Put, decimal_field, hex_field, double_field, numbers_text, progress_text, text_of, fault_text};

use crate::call::Fault;
use numerical::{Answer, Outcome, Progress};

// Copies t into out from `at` on, and answers where it ends.
// The buffer and an index stay two parameters, here and in all that puts text: a struct that lends the buffer asks each contract
// for one clause more, that it still lends the caller's, and says no less otherwise.
pub fn put(out: &mut [u8], at: usize, t: &[u8]) -> usize
    requires { at + length t.now ≤ length out.old }
    ensures { Put out.old at t.now out.new result }
{
    let end = at + t.len();
    out[at..end].copy_from_slice(t);
    end
}

// One byte.
pub fn put_byte(out: &mut [u8], at: usize, b: u8) -> usize
    requires { at < length out.old }
    ensures { Put out.old at (b ∷ []) out.new result }
{
    out[at] = b;
    at + 1
}

// A number in decimal digits, and a byte after it.
pub fn put_decimal(out: &mut [u8], at: usize, n: u64, after: u8) -> usize
    requires { at + 21 ≤ length out.old }
    ensures put { Put out.old at (decimal_field n after) out.new result }
    ensures upper_bound { result ≤ at + 21 }
{
    let mut digits = [0u8; 20];
    let k = io::decimal(n, &mut digits);
    let p = put(out, at, &digits[..k]);
    put_byte(out, p, after)
}

// A number of 64 bits in 16 hexadecimal digits, and a byte after it.
pub fn put_hex(out: &mut [u8], at: usize, n: u64, after: u8) -> usize
    requires { at + 17 ≤ length out.old }
    ensures put { Put out.old at (hex_field n after) out.new result }
    ensures value { result ≡ at + 17 }
{
    let mut digits = [0u8; 16];
    let k = io::hex(n, 16, &mut digits);
    let p = put(out, at, &digits[..k]);
    put_byte(out, p, after)
}

// The 16 hexadecimal digits of a double's bits, and a space.
pub fn put_double(out: &mut [u8], at: usize, x: f64) -> usize
    requires { at + 17 ≤ length out.old }
    ensures put { Put out.old at (double_field x) out.new result }
    ensures value { result ≡ at + 17 }
{
    put_hex(out, at, doubles::pattern(x), b' ')
}

// Doubles, one after the other.
pub fn put_doubles(out: &mut [u8], at: usize, numbers: &[f64]) -> usize
    requires { at + 17 * length numbers.now ≤ length out.old }
    ensures put { Put out.old at (numbers_text numbers.now) out.new result }
    ensures value { result ≡ at + 17 * length numbers.now }
{
    let mut p = at;
    for x in numbers {
        p = put_double(out, p, *x);
    }
    p
}

// The numbers that an answer carries. `Answer::numbers` has three of each answer, and a count would have to stand beside it.
fn put_numbers(out: &mut [u8], at: usize, answer: Answer) -> usize
    requires { at + 51 ≤ length out.old }
    ensures put { Put out.old at (numbers_text (numbers_of answer)) out.new result }
    ensures upper_bound { result ≤ at + 51 }
{
    match answer {
        Answer::ByValue { root, value } => put_doubles(out, at, &[root, value]),
        Answer::ByWidth { root, p, q } => put_doubles(out, at, &[root, p, q]),
        Answer::Refused(_) => at,
    }
}

// The tallies and the mark, and the line's end.
fn put_progress(out: &mut [u8], at: usize, progress: Progress) -> usize
    requires { at + 84 ≤ length out.old }
    ensures put { Put out.old at (progress_text progress) out.new result }
    ensures upper_bound { result ≤ at + 84 }
{
    let i = put_decimal(out, at, progress.tally.steps.0, b' ');
    let j = put_decimal(out, i, progress.tally.values.0, b' ');
    let k = put_decimal(out, j, progress.tally.derivatives.0, b' ');
    put_decimal(out, k, u64::from(progress.mark), b'\n')
}

// A line for an outcome: three doubles of 17 bytes and five numbers of 21 at most, each with the byte after it.
pub fn put_outcome(out: &mut [u8], at: usize, outcome: Outcome) -> usize
    requires { at + 156 ≤ length out.old }
    ensures put { Put out.old at (text_of outcome) out.new result }
    ensures upper_bound { result ≤ at + 156 }
{
    let i = put_decimal(out, at, outcome.answer.kind(), b' ');
    let j = put_numbers(out, i, outcome.answer);
    put_progress(out, j, outcome.progress)
}

impl Fault {
    // No Display, here and in all that puts text: a reply is put at an index of a lent buffer, as `put_fault` and its like promise,
    // and a writer over that would ask each contract for a clause more; doubles by their digits have none.
    fn text(self) -> &'static [u8]
        ensures value { result.now ≡ fault_text self }
        ensures upper_bound { length result.now ≤ 15 }
    {
        match self {
            Fault::Empty => b"error empty\n",
            Fault::Method => b"error method\n",
            Fault::Count => b"error count\n",
            Fault::Number => b"error number\n",
            Fault::Limit => b"error limit\n",
            Fault::Trailing => b"error trailing\n",
        }
    }
}

// A line for what is not a call.
pub fn put_fault(out: &mut [u8], at: usize, why: Fault) -> usize
    requires { at + 15 ≤ length out.old }
    ensures put { Put out.old at (fault_text why) out.new result }
    ensures upper_bound { result ≤ at + 15 }
{
    put(out, at, why.text())
}
