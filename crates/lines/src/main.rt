// Answers calls of the searches, one a line of up to 1,024 bytes. The crate line_text says how lines are written.

#![tactic(auto)]

use line_text::reply::Answered;

fn main(rt: HostRuntime) {
    line_text::desk::serve::<Answered>(rt.stdin(), rt.stdout());
}
