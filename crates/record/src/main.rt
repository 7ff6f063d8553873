// Answers call lines with the bytes of their records, one a line of up to 1,024 bytes. The crate line_text says how calls are
// written; the reply is the record of the call and its answer as hexadecimal digits, `refused` and the refusal's number
// where the call is refused before any evaluation, or what the line tool says of a line that is no call.

#![tactic(auto)]

use record_text::reply::Recorded;

fn main(rt: HostRuntime) {
    line_text::desk::serve_at_once::<Recorded>(rt.stdin(), rt.stdout());
}
