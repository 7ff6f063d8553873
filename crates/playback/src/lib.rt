// Records played back: each call is run again, and its answer compared with the one on record.

#![tactic(auto)]

ghost use Rattle.std.specs.Prelude.{◌≤◌, ◌≡◌};
ghost use Rattle.numerical.specs.Answers.{numbers_of, padded};
ghost use Rattle.records.specs.Records.{bits_of};
ghost use Rattle.simple_convergency.specs.Stop.{most_coefficients};
ghost use Rattle.playback.specs.Playback.{answer_now, field_number, fields_of, first_difference, compared_in, played_back};

use numerical::{Answer, Outcome};
use records::{Record, Refusal};

// The fields of an answer, in record order: its kind, its numbers, the tallies and the mark.
#[derive(Clone, Copy, Debug, PartialEq, Eq)]
pub enum Field {
    Kind = 1,
    First,
    Second,
    Third,
    Steps,
    Values,
    Derivatives,
    Mark,
}

impl Field {
    const IN_ORDER: [Field; 8] = [
        Field::Kind,
        Field::First,
        Field::Second,
        Field::Third,
        Field::Steps,
        Field::Values,
        Field::Derivatives,
        Field::Mark,
    ];

    // Its number from 1 to 8, in record order.
    pub fn number(self) -> u8
        ensures { result ≡ field_number self }
    {
        self as u8
    }
}

// What the answer on record and the present one hold of the first field that differs: a double by its bits.
#[derive(Clone, Copy, Debug, PartialEq, Eq)]
pub struct Difference {
    pub field: Field,
    pub recorded: u64,
    pub present: u64,
}

// How many records agree before the first that does not, and at which byte that one begins.
#[derive(Clone, Copy, Debug, PartialEq, Eq)]
pub enum Playback {
    Agree {
        records: usize,
    },
    Differs {
        records: usize,
        offset: usize,
        difference: Difference,
    },
    Refused {
        refusal: Refusal,
        records: usize,
        offset: usize,
    },
}

// The bits of an answer's numbers; of one that it has not, those of +0.0.
#[tactic(auto, unfolding(records::specs::Records::bits_of))]
fn bits_of(answer: Answer) -> [u64; 3]
    ensures { result ≡ bits_of (padded (numbers_of answer)) }
{
    let [first, second, third] = answer.numbers();
    [
        doubles::pattern(first),
        doubles::pattern(second),
        doubles::pattern(third),
    ]
}

// What a record holds of an outcome, field by field.
#[tactic(auto, unfolding(crate::specs::Playback::fields_of, records::specs::Records::bits_of))]
fn fields_of(outcome: Outcome) -> [u64; 8]
    ensures { result ≡ fields_of outcome }
{
    let [first, second, third] = bits_of(outcome.answer);
    let [steps, values, derivatives, mark] = outcome.progress.counts();
    [
        outcome.answer.kind(),
        first,
        second,
        third,
        steps,
        values,
        derivatives,
        mark,
    ]
}

// The first field that differs, as bits.
fn first_difference(recorded: [u64; 8], present: [u64; 8]) -> Option<Difference>
    ensures { result ≡ first_difference recorded present }
{
    for (field, (recorded, present)) in Field::IN_ORDER.iter().zip(recorded.iter().zip(&present)) {
        if recorded != present {
            return Some(Difference {
                field: *field,
                recorded: *recorded,
                present: *present,
            });
        }
    }
    None
}

// What the record's call gives now.
fn answer_now(content: Record) -> Outcome
    requires { content.count ≤ most_coefficients }
    ensures { result ≡ answer_now content }
{
    let coefficients = &content.coefficients[..content.count];
    roots::search(
        coefficients,
        content.method,
        content.tolerances,
        content.limit,
    )
}

// The first field in which the record's answer and the present one differ.
#[tactic(auto, unfolding(crate::specs::Playback::compared_in))]
fn compared(content: Record) -> Option<Difference>
    requires { content.count ≤ most_coefficients }
    ensures { result ≡ compared_in content }
{
    first_difference(fields_of(content.outcome), fields_of(answer_now(content)))
}

// Plays the records back, one after the other from the start, up to the first that does not agree. The index goes on by each
// record's length, and the verdict tells it.
pub fn play_back(bytes: &[u8]) -> Playback
    ensures { result ≡ played_back bytes.now }
{
    let mut records = 0;
    let mut at = 0;
    while at < bytes.len() {
        let reading = match records::read(&bytes[at..]) {
            Ok(reading) => reading,
            Err(refusal) => {
                return Playback::Refused {
                    refusal,
                    records,
                    offset: at,
                };
            }
        };
        if let Some(difference) = compared(reading.content) {
            return Playback::Differs {
                records,
                offset: at,
                difference,
            };
        }
        records += 1;
        at += reading.length;
    }
    Playback::Agree { records }
}
