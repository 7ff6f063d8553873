// A record as a line: LENGTH RECORD_KIND METHOD COUNT A0 .. START [START] VALUE_TOLERANCE POINT_TOLERANCE LIMIT KIND
// NUMBERS.. STEPS VALUES DERIVATIVES MARK.
ghost use Rattle.std.specs.Prelude.{◌≡◌, ◌+◌, ◌≤◌, length, IfSome};
ghost use Rattle.records.specs.Records.{reading_of};
ghost use Rattle.line_text.specs.Texts.{Put};
ghost use Rattle.record_text.specs.RecordTexts.{longest_line, rule_text, call_text, record_text, refused_text, reading_text, taken_by};

use line_text::text;
use records::Record;
use roots::Method;

// Where a record's line ends, and how many bytes the record took, if it was not refused.
#[derive(Clone, Copy)]
pub struct Shown {
    pub end: usize,
    pub taken: Option<usize>,
}

// No line of a record is longer.
pub const LONGEST_LINE: usize = 601;

// The starts, the tolerances and the limit. Not one with the rule of records: a line has both tolerances and no bytes, in every kind.
fn put_rule(out: &mut [u8], at: usize, content: &Record) -> usize
    requires { at + 89 ≤ length out.old }
    ensures put { Put out.old at (rule_text content.now.method content.now.tolerances content.now.limit) out.new result }
    ensures upper_bound { result ≤ at + 89 }
{
    let starts = content.method.starts();
    let count = Method::start_count(content.method.number());
    let tolerances = content.tolerances;
    let p = text::put_doubles(out, at, &starts[..count]);
    let q = text::put_doubles(out, p, &[tolerances.value, tolerances.point]);
    text::put_decimal(out, q, content.limit, b' ')
}

// The call: its method's number, its coefficients with their count, and the rest of it.
fn put_call(out: &mut [u8], at: usize, content: &Record) -> usize
    requires { at + 403 ≤ length out.old }
    ensures put { Put out.old at (call_text content.now) out.new result }
    ensures upper_bound { result ≤ at + 403 }
{
    let p = text::put_decimal(out, at, u64::from(content.method.number()), b' ');
    let q = text::put_decimal(out, p, content.count as u64, b' ');
    let own = content.own_count();
    let t = text::put_doubles(out, q, &content.coefficients[..own]);
    put_rule(out, t, content)
}

// A record of so many bytes: the length, the kind, the call and the answer.
fn put_record(out: &mut [u8], at: usize, count: usize, content: &Record) -> usize
    requires { at + longest_line ≤ length out.old }
    ensures put { Put out.old at (record_text count content.now) out.new result }
    ensures upper_bound { result ≤ at + longest_line }
{
    let p = text::put_decimal(out, at, count as u64, b' ');
    let q = text::put_decimal(out, p, content.kind, b' ');
    let t = put_call(out, q, content);
    text::put_outcome(out, t, content.outcome)
}

// The line of a refusal, by any number: an answer on its way to a record may carry one that is none.
pub fn put_refused(out: &mut [u8], at: usize, number: u8) -> usize
    requires { at + 29 ≤ length out.old }
    ensures put { Put out.old at (refused_text number) out.new result }
    ensures upper_bound { result ≤ at + 29 }
{
    let p = text::put(out, at, b"refused ");
    text::put_decimal(out, p, u64::from(number), b'\n')
}

// The line of the record at the start of the bytes, or of its refusal.
pub fn put_first(out: &mut [u8], at: usize, s: &[u8]) -> Shown
    requires { at + longest_line ≤ length out.old }
    ensures put { Put out.old at (reading_text (reading_of s.now)) out.new result.end }
    ensures taken_value { result.taken ≡ taken_by (reading_of s.now) }
    ensures end_bound { (result.end ≤ at + longest_line) × IfSome result.taken (λ n. n ≤ length s.now) }
{
    match records::read(s) {
        Ok(reading) => Shown {
            end: put_record(out, at, reading.length, &reading.content),
            taken: Some(reading.length),
        },
        Err(refusal) => Shown {
            end: put_refused(out, at, refusal.number()),
            taken: None,
        },
    }
}
