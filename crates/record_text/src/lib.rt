// Records as text: a record read from bytes as a line of its numbers, and the record of a call line as hexadecimal digits.

#![tactic(auto)]

pub mod hex;
pub mod record;
pub mod reply;
