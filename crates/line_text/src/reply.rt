// A line's reply: what it asks for is searched, and what a program says of that put down as text.
ghost use Rattle.std.specs.Prelude.{◌≡◌, ℕ, ◌+◌, ◌≤◌, List, length, take};
ghost use Rattle.std.proofs.Common.{lit≤};
ghost use Rattle.line_text.specs.Calls.{Request, request_of};
ghost use Rattle.line_text.specs.Texts.{Put, trimmed, answer_for, reply_to, line_reply};

use crate::call::{self, Call, Fault};
use crate::text;

// What a program replies to the calls that its lines are.
pub trait Replies {
    // No reply is longer.
    const LONGEST: usize;

    ghost LONGEST: { ℕ };

    // The reply to a call.
    ghost text: { Request → List ℕ };

    // Searches the call whose coefficients a begins with, and puts the reply.
    fn put_answer(out: &mut [u8], at: usize, a: &[f64; 44], call: Call) -> usize
        requires room { at + LONGEST ≤ length out.old }
        requires count_in_bounds { call.count ≤ length a.now }
        ensures put { Put out.old at (text (request_of call a.now)) out.new result }
        ensures upper_bound { result ≤ at + LONGEST };

    // What is not a call has a reply of up to 15 bytes.
    ghost holds_errors: { 15 ≤ LONGEST };

    // The buffer of `serve` has room for a reply.
    ghost fits: { LONGEST ≤ 65536 };
}

// The line tool replies the answer, in 156 bytes or less.
pub struct Answered;

impl Replies for Answered {
    const LONGEST: usize = 156;

    ghost LONGEST = { 156 };

    ghost text = { answer_for };

    ghost holds_errors = { lit≤ tt };

    ghost fits = { lit≤ tt };

    fn put_answer(out: &mut [u8], at: usize, a: &[f64; 44], call: Call) -> usize {
        let outcome = roots::search(&a[..call.count], call.method, call.tolerances, call.limit);
        text::put_outcome(out, at, outcome)
    }
}

// The line's length without a carriage return at its end.
fn trimmed_length(s: &[u8]) -> usize
    ensures { (result ≤ length s.now) × (take result s.now ≡ trimmed s.now) }
{
    s.strip_suffix(b"\r").unwrap_or(s).len()
}

// The reply to a whole line.
fn put_reply<R: Replies>(s: &[u8], out: &mut [u8], at: usize) -> usize
    requires { at + R.LONGEST ≤ length out.old }
    ensures put { Put out.old at (reply_to R.text s.now) out.new result }
    ensures upper_bound { result ≤ at + R.LONGEST }
{
    let n = trimmed_length(s);
    // of an empty line nothing is read, so no room for coefficients is made ready
    if n == 0 {
        return text::put_fault(out, at, Fault::Empty);
    }
    let mut a = [0.0f64; 44];
    match call::read(&s[..n], &mut a) {
        Ok(c) => R::put_answer(out, at, &a, c),
        Err(why) => text::put_fault(out, at, why),
    }
}

// The reply to a line, or to one that was too long to be kept.
pub fn put_line<R: Replies>(s: &[u8], is_long: bool, out: &mut [u8], at: usize) -> usize
    requires { at + R.LONGEST ≤ length out.old }
    ensures put { Put out.old at (line_reply R.text is_long s.now) out.new result }
    ensures upper_bound { result ≤ at + R.LONGEST }
{
    if is_long {
        text::put(out, at, b"error too long\n")
    } else {
        put_reply::<R>(s, out, at)
    }
}

// The line tool's reply to a line, by the definition's name: what its program says of itself is the definition's answer.
pub fn put_answered(s: &[u8], is_long: bool, out: &mut [u8], at: usize) -> usize
    requires { at + 156 ≤ length out.old }
    ensures put { Put out.old at (line_reply answer_for is_long s.now) out.new result }
    ensures upper_bound { result ≤ at + 156 }
{
    put_line::<Answered>(s, is_long, out, at)
}
