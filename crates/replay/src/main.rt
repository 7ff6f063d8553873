// Plays the records of the input back, and writes the verdict as a line: agree RECORDS, differs RECORDS OFFSET FIELD RECORDED
// NOW or refused RECORDS OFFSET REFUSAL. FIELD is 1 to 8 in record order; a number of an answer stands by the 16 hexadecimal digits
// of its bits. Where the input cannot be read nothing is written.

#![tactic(auto)]

ghost use Rattle.std.specs.Prelude.{◌+◌, ◌^◌, ◌<◌, ◌≤◌, length, ◌≡◌};
ghost use Rattle.line_text.specs.Texts.{Put};
ghost use Rattle.records.specs.Records.{longest_record};
ghost use Rattle.replay.specs.VerdictTexts.{difference_text, is_number, longest_line, place_text, value_text, verdict_text};

use line_text::text;
use playback::{Difference, Field, Playback};
use records::Record;
use std::io::{Read, Stdin, Stdout, Write};
use std::ops::ControlFlow;

// How many records agree so far, and how many bytes they take.
#[derive(Clone, Copy)]
struct Reached {
    records: usize,
    offset: usize,
}

// What is left of a block that may be cut off: the bytes from an index on, and what is reached before them.
#[derive(Clone, Copy)]
struct Rest {
    at: usize,
    reached: Reached,
}

// ---- the verdict as a line

// Whether a field is one of the answer's numbers.
fn is_number(field: Field) -> bool
    ensures { result ≡ is_number field }
{
    matches!(field, Field::First | Field::Second | Field::Third)
}

// What a field holds, and a byte after it.
fn put_value(out: &mut [u8], at: usize, field: Field, n: u64, after: u8) -> usize
    requires { at + 21 ≤ length out.old }
    ensures put { Put out.old at (value_text field n after) out.new result }
    ensures upper_bound { result ≤ at + 21 }
{
    if is_number(field) {
        text::put_hex(out, at, n, after)
    } else {
        text::put_decimal(out, at, n, after)
    }
}

// The records that agree and the offset, each with a space after it.
fn put_place(out: &mut [u8], at: usize, records: usize, offset: usize) -> usize
    requires { at + 42 ≤ length out.old }
    ensures put { Put out.old at (place_text records offset) out.new result }
    ensures upper_bound { result ≤ at + 42 }
{
    let p = text::put_decimal(out, at, records as u64, b' ');
    text::put_decimal(out, p, offset as u64, b' ')
}

// The field's number and both values.
fn put_difference(out: &mut [u8], at: usize, difference: Difference) -> usize
    requires { at + 63 ≤ length out.old }
    ensures put { Put out.old at (difference_text difference) out.new result }
    ensures upper_bound { result ≤ at + 63 }
{
    let field = difference.field;
    let p = text::put_decimal(out, at, u64::from(field.number()), b' ');
    let q = put_value(out, p, field, difference.recorded, b' ');
    put_value(out, q, field, difference.present, b'\n')
}

// Printed by hand, as line_text does it, for the reason at its `Fault::text`.
fn put_verdict(out: &mut [u8], verdict: Playback) -> usize
    requires { longest_line ≤ length out.old }
    ensures put { Put out.old 0 (verdict_text verdict) out.new result }
    ensures upper_bound { result ≤ longest_line }
{
    match verdict {
        Playback::Agree { records } => {
            let p = text::put(out, 0, b"agree ");
            text::put_decimal(out, p, records as u64, b'\n')
        }
        Playback::Differs {
            records,
            offset,
            difference,
        } => {
            let p = text::put(out, 0, b"differs ");
            let q = put_place(out, p, records, offset);
            put_difference(out, q, difference)
        }
        Playback::Refused {
            refusal,
            records,
            offset,
        } => {
            let p = text::put(out, 0, b"refused ");
            let q = put_place(out, p, records, offset);
            text::put_decimal(out, q, u64::from(refusal.number()), b'\n')
        }
    }
}

// ---- block by block

impl Reached {
    ghost use Rattle.std.specs.Prelude.{false};
    ghost use Rattle.playback.specs.AheadLaws.{shifted};
    ghost use Rattle.replay.specs.Courses.{Fits, Goes, Room, Within, course_of, reached_at};

    // So many records and bytes further.
    fn after(self, records: usize, offset: usize) -> Reached
        requires { (self.records + records < 2 ^ 64) × (self.offset + offset < 2 ^ 64) }
        ensures { result ≡ reached_at (self.records + records) (self.offset + offset) }
    {
        Reached {
            records: self.records + records,
            offset: self.offset + offset,
        }
    }

    // A verdict over the bytes behind, as one over all bytes.
    fn told(self, verdict: Playback) -> Playback
        requires { Fits verdict self }
        ensures { result ≡ shifted self.records self.offset verdict }
    {
        match verdict {
            Playback::Agree { records } => Playback::Agree {
                records: self.records + records,
            },
            Playback::Differs {
                records,
                offset,
                difference,
            } => {
                let Reached { records, offset } = self.after(records, offset);
                Playback::Differs {
                    records,
                    offset,
                    difference,
                }
            }
            Playback::Refused {
                refusal,
                records,
                offset,
            } => {
                let Reached { records, offset } = self.after(records, offset);
                Playback::Refused {
                    refusal,
                    records,
                    offset,
                }
            }
        }
    }

    // What a block's verdict says where others may follow: if all its records agree the input goes on behind it, and a record that
    // was refused with fewer bytes at hand than the longest has may be cut off there. Any other verdict is the input's.
    fn course_of(self, verdict: Playback, long: usize) -> ControlFlow<Playback, Rest>
        requires { Within long verdict × Room long self }
        ensures { result ≡ course_of verdict long self }
    {
        match verdict {
            Playback::Agree { records } => ControlFlow::Continue(Rest {
                at: long,
                reached: self.after(records, long),
            }),
            Playback::Refused {
                records,
                offset,
                ..
            } if long - offset < Record::LONGEST => ControlFlow::Continue(Rest {
                at: offset,
                reached: self.after(records, offset),
            }),
            _ => ControlFlow::Break(self.told(verdict)),
        }
    }

    // Plays back a block that others may follow.
    fn played(self, block: &[u8]) -> ControlFlow<Playback, Rest>
        requires { Room (length block.now) self }
        ensures { Goes block.now false self result }
    {
        self.course_of(playback::play_back(block), block.len())
    }
}

// A block of the input, in fixed memory with no heap: how many bytes at its front were read and not played, and what is reached
// before them.
#[derive(Drop)]
struct Block {
    bytes: [u8; 65536],
    kept: usize,
    reached: Reached,
    ghost kept_le_longest_record: { kept ≤ longest_record },
}

impl Block {
    ghost use Rattle.std.specs.Prelude.{IfSome, take, true, false};
    ghost use Rattle.std.specs.ControlFlow.{ForContinue, MatchControlFlow};
    ghost use Rattle.std.specs.declared.ops.ControlFlow.TheVariants.{Break};
    ghost use Rattle.replay.specs.Courses.{Bounded, Follows, Goes, Room, block_length, most_bytes_in_all};

    // Plays back the bytes up to an index, and moves to the front what may be cut off there; or breaks off with the verdict.
    fn play(&mut self, end: usize) -> ControlFlow<Playback>
        requires { (end ≤ length self.old.bytes) × Room end self.old.reached }
        ensures follows { MatchControlFlow result
            (λ _. Follows (take end self.old.bytes) self.old.reached self.new)
            (λ verdict. Goes (take end self.old.bytes) false self.old.reached (Break verdict)) }
        ensures bounded { ForContinue result (λ _. Bounded (self.old.reached.offset + end) (self.old.reached.records + end) self.new) }
    {
        let rest = self.reached.played(&self.bytes[..end])?;
        self.kept = blocks::move_to_front(&mut self.bytes, rest.at, end);
        self.reached = rest.reached;
        ControlFlow::Continue(())
    }

    // At the input's end: no bytes follow those that are kept.
    fn close(&self) -> Playback
        requires { Room self.now.kept self.now.reached }
        ensures { Goes (take self.now.kept self.now.bytes) true self.now.reached (Break result) }
    {
        let verdict = playback::play_back(&self.bytes[..self.kept]);
        self.reached.told(verdict)
    }

    // Reads what comes behind the bytes that are kept, and plays it back. Breaks off with the verdict, at the input's end too; None
    // where the read fails.
    fn read_on(&mut self, mut input: Stdin) -> Option<ControlFlow<Playback>>
        requires { (self.old.reached.offset ≤ most_bytes_in_all) × (self.old.reached.records ≤ most_bytes_in_all) }
        ensures { IfSome result (λ course. ForContinue course
            (λ _. Bounded (self.old.reached.offset + self.old.kept + block_length) (self.old.reached.records + block_length) self.new)) }
    {
        let n = input.read(&mut self.bytes[self.kept..]).ok()?;
        if n == 0 {
            return Some(ControlFlow::Break(self.close()));
        }
        Some(self.play(self.kept + n))
    }
}

// Writes the verdict.
fn tell(mut output: Stdout, verdict: Playback) {
    let mut line = [0u8; 113];
    let n = put_verdict(&mut line, verdict);
    output.write_all(&line[..n]).ok();
}

// A proved loop has to end, and nothing says that the input does: so it takes no more blocks than this, a number that no run uses
// up, 2^46. With blocks of 2^16 bytes every sum stays below 2^64. No loop in common with the other programs: its contract could
// say nothing of what the input holds.
const MOST_BLOCKS: u64 = 70368744177664;

fn main(rt: HostRuntime) {
    let mut block = Block {
        bytes: io::large_buffer(),
        kept: 0,
        reached: Reached {
            records: 0,
            offset: 0,
        },
    };
    for _ in 0..MOST_BLOCKS {
        let Some(course) = block.read_on(rt.stdin()) else {
            return;
        };
        if let ControlFlow::Break(verdict) = course {
            tell(rt.stdout(), verdict);
            return;
        }
    }
}
