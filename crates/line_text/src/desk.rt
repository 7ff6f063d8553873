// The desk of a program that answers lines: it reads its input to the end, and writes a reply to each line.
ghost use Rattle.std.specs.Prelude.{◌≡◌, ◌≤◌, length, is_ok};
ghost use Rattle.line_text.specs.Inputs.{Begun, fresh, line_of};

use crate::input::{self, State};
use crate::reply::{self, Replies};
use std::io::{Read, Stdin, Stdout, Write};

// The line that has begun, in fixed memory with no heap. Between two blocks no reply waits. The replies' buffer is not in it: a
// program chooses by its length how many may wait.
#[derive(Drop)]
struct Desk {
    line: [u8; 1024],
    state: State,
    ghost kept_in_bounds: { state.kept ≤ length line },
    ghost none_waits: { state.waiting ≡ 0 },
}

impl Desk {
    // Before any line.
    fn new() -> Self
        ensures { line_of result.line result.state ≡ fresh }
    {
        Desk {
            line: [0; 1024],
            state: State::default(),
        }
    }

    // Answers the lines of a block: the replies are written each time that they have filled their buffer, and at the block's end.
    fn answer<R: Replies>(
        &mut self,
        mut output: Stdout,
        block: &[u8],
        out: &mut [u8],
    ) -> std::io::Result<()>
        requires { R.LONGEST ≤ length out.old }
        ensures { Begun block.now self.old.line self.old.state self.new.line (is_ok result) self.new.state }
    {
        let mut at = 0;
        // not a `for`: a turn goes on by as many bytes as were taken
        while at < block.len() {
            let p = input::fed::<R>(block, at, &mut self.line, out, self.state);
            self.state = State {
                waiting: 0,
                ..p.state
            };
            output.write_all(&out[..p.state.waiting])?;
            at = p.at;
        }
        Ok(())
    }

    // At the input's end: the last line may lack its line feed.
    fn close<R: Replies>(&self, mut output: Stdout, out: &mut [u8])
        requires { R.LONGEST ≤ length out.old }
    {
        let State { kept, is_long, .. } = self.state;
        if 0 < kept {
            let end = reply::put_line::<R>(&self.line[..kept], is_long, out, 0);
            let _ = output.write_all(&out[..end]);
        }
    }

    // Reads a block, of as many bytes as have come, and answers its lines. It tells whether to go on: where no byte came, or a
    // reply could not be written, it does not. A read that fails counts as the input's end.
    fn read_block<R: Replies>(
        &mut self,
        mut input: Stdin,
        output: Stdout,
        out: &mut [u8],
    ) -> Option<()>
        requires { R.LONGEST ≤ length out.old }
    {
        let mut block = io::large_buffer();
        let n = input.read(&mut block).unwrap_or(0);
        if n == 0 {
            self.close::<R>(output, out);
            return None;
        }
        self.answer::<R>(output, &block[..n], out).ok()
    }
}

// Replies to each line of the input, through a buffer. No clause can say more: none can say what an input holds, nor what an
// output takes.
// A proved loop has to end, and nothing says that the input does: so the turns are counted, up to a number that no run reaches.
fn serve_through<R: Replies>(input: Stdin, output: Stdout, out: &mut [u8])
    requires { R.LONGEST ≤ length out.old }
{
    let mut desk = Desk::new();
    for _ in 0..u64::MAX {
        if desk.read_block::<R>(input, output, out).is_none() {
            break;
        }
    }
}

// Replies to each line of the input. Replies wait until they have filled their buffer, or the block's end.
pub fn serve<R: Replies>(input: Stdin, output: Stdout) {
    serve_through::<R>(input, output, &mut io::large_buffer());
}

// Replies to each line of the input, and writes each reply at once: its buffer has room for one.
pub fn serve_at_once<R: Replies>(input: Stdin, output: Stdout)
    requires { R.LONGEST ≤ 4096 }
{
    serve_through::<R>(input, output, &mut io::buffer()[..R::LONGEST]);
}
