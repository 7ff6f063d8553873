// The input as it comes: bytes gathered into a line, and replies that wait to be written.
ghost use Rattle.std.specs.Prelude.{◌≡◌, ◌+◌, ◌≤◌, ◌<◌, length};
ghost use Rattle.line_text.specs.Inputs.{Fine, Taken, Fed, stops_at};

use crate::reply::{self, Replies};

// Where things stand between two bytes. The line and the replies are no fields: `fed`, which docs/PROMISES.md names, takes lent
// buffers of any length. A program has them in fixed memory with no heap.
#[derive(Clone, Copy, Default)]
pub struct State {
    // How many bytes of the present line are kept, and whether there were more than can be: no Option, since they count under both.
    pub kept: usize,
    pub is_long: bool,
    // How many bytes of replies wait.
    pub waiting: usize,
}

// Where a block was left.
#[derive(Clone, Copy)]
pub struct Pause {
    pub at: usize,
    pub state: State,
}

// One more byte: a line's end gives its reply, any other byte is kept if there is room.
fn taken<R: Replies>(line: &mut [u8], out: &mut [u8], s: State, b: u8) -> State
    requires fine { Fine line.old out.old s }
    requires waiting_in_bounds { s.waiting + R.LONGEST ≤ length out.old }
    ensures { Taken R.text line.old out.old s b line.new out.new result }
{
    if b == b'\n' {
        let end = reply::put_line::<R>(&line[..s.kept], s.is_long, out, s.waiting);
        return State {
            waiting: end,
            ..State::default()
        };
    }
    if s.kept < line.len() {
        line[s.kept] = b;
        State {
            kept: s.kept + 1,
            ..s
        }
    } else {
        State { is_long: true, ..s }
    }
}

// The bytes of a block from an index on, to its end or until another reply might not find room.
pub fn fed<R: Replies>(
    block: &[u8],
    from: usize,
    line: &mut [u8],
    out: &mut [u8],
    start: State,
) -> Pause
    requires from_in_bounds { from < length block.now }
    requires fine { Fine line.old out.old start }
    requires waiting_in_bounds { start.waiting + R.LONGEST ≤ length out.old }
    ensures fed { Fed R.text block.now from line.old out.old start result.at line.new out.new result.state }
    ensures at_value { result.at ≡ stops_at R.text R.LONGEST block.now from line.old out.old start }
    ensures from_lt_at { from < result.at }
{
    let mut s = start;
    for (i, b) in block[from..].iter().enumerate() {
        s = taken::<R>(line, out, s, *b);
        // only a line's end has put a reply
        if *b == b'\n' && out.len() - R::LONGEST < s.waiting {
            return Pause {
                at: from + i + 1,
                state: s,
            };
        }
    }
    Pause {
        at: block.len(),
        state: s,
    }
}
