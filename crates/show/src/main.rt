// Shows the records of the input, each as a line: LENGTH RECORD_KIND METHOD COUNT A0 .. START [START] VALUE_TOLERANCE
// POINT_TOLERANCE LIMIT KIND NUMBERS.. STEPS VALUES DERIVATIVES MARK. Where the rest is no record the last line is `refused 11`.

#![tactic(auto)]

ghost use Rattle.std.specs.Prelude.{◌+◌, ◌≤◌, ◌<◌, length, take, IfSome};
ghost use Rattle.records.specs.Records.{longest_record};
ghost use Rattle.show.specs.Streams.{Filled, Keeps};

use record_text::record::LONGEST_LINE;
use records::Record;
use std::io::{Read, Stdin, Stdout, Write};

// How many bytes of lines wait, and where a block goes on behind them, if each is of a record.
#[derive(Clone, Copy)]
struct Pause {
    waiting: usize,
    next: Option<usize>,
}

// Puts the lines of records from an index on, while `least` bytes are left and another line finds room.
fn fill(block: &[u8], from: usize, least: usize, out: &mut [u8; 65536]) -> Pause
    requires { (1 ≤ least) × (from + least ≤ length block.now) }
    ensures { Filled block.now from least out.old out.new result }
{
    let mut at = from;
    let mut waiting = 0;
    // Not a `for`: a turn goes on by as many bytes as a record takes.
    while least <= block.len() - at {
        let shown = record_text::record::put_first(out, waiting, &block[at..]);
        waiting = shown.end;
        let Some(n) = shown.taken else {
            return Pause {
                waiting,
                next: None,
            };
        };
        at += n;
        if out.len() - LONGEST_LINE < waiting {
            break;
        }
    }
    Pause {
        waiting,
        next: Some(at),
    }
}

// Shows a block while `least` bytes are left of it, and tells up to where, if it goes on. Each time the lines have filled
// their buffer they are written. `least` is as many as the longest record has, or 1 at the input's end.
fn shown(mut output: Stdout, block: &[u8], least: usize, out: &mut [u8; 65536]) -> Option<usize>
    requires { 1 ≤ least }
    ensures at_in_bounds { IfSome result (λ at. at ≤ length block.now) }
    ensures block_len_bound { IfSome result (λ at. length block.now < at + least) }
{
    let mut at = 0;
    // Not a `for`: a turn goes on by as many bytes as the records take whose lines find room.
    while least <= block.len() - at {
        let p = fill(block, at, least, out);
        output.write_all(&out[..p.waiting]).ok()?;
        at = p.next?;
    }
    Some(at)
}

// What was read and is not shown yet stands at the front of the block; the lines wait in the other buffer. Fixed memory, no heap.
#[derive(Drop)]
struct Buffers {
    block: [u8; 65536],
    kept: usize,
    out: [u8; 65536],
    ghost kept_le_longest_record: { kept ≤ longest_record },
}

impl Buffers {
    // Shows the bytes up to an index, and moves to the front what may be cut off there, if it goes on. What is refused with as
    // many bytes at hand as the longest record has is no record, whatever follows.
    fn show(&mut self, output: Stdout, end: usize) -> Option<()>
        requires { end ≤ length self.old.block }
        ensures { IfSome result (λ _. Keeps (take end self.old.block) self.new.block self.new.kept) }
    {
        let block = &self.block[..end];
        let at = shown(output, block, Record::LONGEST, &mut self.out)?;
        self.kept = blocks::move_to_front(&mut self.block, at, end);
        Some(())
    }

    // Reads what comes behind the bytes that are kept, and shows its records; None where it is not to go on. A read that fails
    // counts as the input's end.
    fn read_block(&mut self, mut input: Stdin, output: Stdout) -> Option<()> {
        let n = input.read(&mut self.block[self.kept..]).unwrap_or(0);
        if n == 0 {
            let _ = shown(output, &self.block[..self.kept], 1, &mut self.out);
            return None;
        }
        self.show(output, self.kept + n)
    }
}

// A proved loop has to end, and nothing says that the input does: so the turns are counted, up to a number that no run reaches.
// No loop in common with the other programs: its contract could say nothing of what the input holds.
fn main(rt: HostRuntime) {
    let mut buffers = Buffers {
        block: io::large_buffer(),
        kept: 0,
        out: io::large_buffer(),
    };
    for _ in 0..u64::MAX {
        if buffers.read_block(rt.stdin(), rt.stdout()).is_none() {
            break;
        }
    }
}
