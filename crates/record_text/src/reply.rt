// The record tool's reply to a call: the record of the call and its answer, as hexadecimal digits.
ghost use Rattle.std.specs.Prelude.{◌≡◌, ◌+◌, ◌≤◌, length};
ghost use Rattle.std.proofs.Common.{lit≤};
ghost use Rattle.line_text.specs.Texts.{Put};
ghost use Rattle.record_text.specs.RecordTexts.{longest_reply, refusal_of, recorded_text, record_for, line_record};

use crate::{hex, record};
use line_text::call::Call;
use line_text::reply::{self, Replies};
use line_text::text;
use numerical::Answer;
use records::Record;

// The number of a refusal, if the answer is one.
fn refusal(answer: Answer) -> Option<u8>
    ensures { result ≡ refusal_of answer }
{
    match answer {
        Answer::Refused(number) => Some(number),
        _ => None,
    }
}

// The bytes of a record as digits, or the refusal of a call that has no record.
fn put_content(out: &mut [u8], at: usize, content: Record) -> usize
    requires { at + longest_reply ≤ length out.old }
    ensures put { Put out.old at (recorded_text content) out.new result }
    ensures upper_bound { result ≤ at + longest_reply }
{
    let mut aside = [0u8; Record::LONGEST];
    match records::write(content, &mut aside) {
        Ok(n) => {
            let p = hex::put_bytes(out, at, &aside[..n]);
            text::put_byte(out, p, b'\n')
        }
        Err(_) => record::put_refused(out, at, refusal(content.outcome.answer).unwrap_or(0)),
    }
}

// The record tool replies the record: two digits a byte, and the line's end.
pub struct Recorded;

impl Replies for Recorded {
    const LONGEST: usize = 2 * Record::LONGEST + 1;

    ghost LONGEST = { longest_reply };

    ghost text = { record_for };

    ghost holds_errors = { lit≤ tt };

    ghost fits = { lit≤ tt };

    fn put_answer(out: &mut [u8], at: usize, a: &[f64; 44], call: Call) -> usize {
        let mut coefficients = [0.0f64; 16];
        coefficients.copy_from_slice(&a[..16]);
        let content = Record {
            kind: Record::NEWEST,
            coefficients,
            count: call.count,
            method: call.method,
            tolerances: call.tolerances,
            limit: call.limit,
            outcome: roots::search(&a[..call.count], call.method, call.tolerances, call.limit),
        };
        put_content(out, at, content)
    }
}

// The record tool's reply to a line, by the definition's name: what its program says of itself is the definition's record.
pub fn put_line(s: &[u8], is_long: bool, out: &mut [u8], at: usize) -> usize
    requires { at + longest_reply ≤ length out.old }
    ensures put { Put out.old at (line_record is_long s.now) out.new result }
    ensures upper_bound { result ≤ at + longest_reply }
{
    reply::put_line::<Recorded>(s, is_long, out, at)
}
