// Lines of text for the searches: a line is read as a call, and its answer is printed as a line. The desk does it for a program's
// input and output, with what the program replies to a call.
//
// In: METHOD COUNT A0 .. START [START] VALUE_TOLERANCE POINT_TOLERANCE LIMIT, with a space or more between two fields.
// METHOD is 1 Brent, 2 Illinois, 3 secant, 4 Newton, which has one start, 5 polynomial search. COUNT, up to 40, and LIMIT
// are decimal, doubles the 16 hexadecimal digits of their bits. A carriage return may stand before the line feed, and the
// last line may lack both.
//
// Out: KIND NUMBERS.. STEPS VALUES DERIVATIVES MARK. KIND is 0 by value, with the root and its value, 1 by width, with the
// root and two points, otherwise 10 plus the refusal's number. What is not a call gets `error` and the first fault of
// empty, method, count, number, limit, trailing; a line that outgrew its buffer gets `error too long`.

#![tactic(auto)]

pub mod call;
pub mod desk;
pub mod digits;
pub mod fields;
pub mod input;
pub mod reply;
pub mod text;
