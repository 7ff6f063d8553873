// Bytes as hexadecimal digits in lower case, two for each byte.
ghost use Rattle.std.specs.Prelude.{◌≡◌, ◌+◌, ◌*◌, ◌≤◌, length};
ghost use Rattle.line_text.specs.Texts.{Put};
ghost use Rattle.record_text.specs.RecordTexts.{pair, hex_bytes};

use line_text::text;

// The two digits of a byte.
fn put_pair(out: &mut [u8], at: usize, b: u8) -> usize
    requires { at + 2 ≤ length out.old }
    ensures put { Put out.old at (pair b) out.new result }
    ensures value { result ≡ at + 2 }
{
    let mut digits = [0u8; 16];
    let k = io::hex(u64::from(b), 2, &mut digits);
    text::put(out, at, &digits[..k])
}

// The digits of all bytes, with nothing between them. As line_text's `put_doubles`, a loop of a line: one for both would take
// the inner function as a closure, with a clause on what it puts.
pub fn put_bytes(out: &mut [u8], at: usize, s: &[u8]) -> usize
    requires { at + 2 * length s.now ≤ length out.old }
    ensures put { Put out.old at (hex_bytes s.now) out.new result }
    ensures value { result ≡ at + 2 * length s.now }
{
    let mut p = at;
    for b in s {
        p = put_pair(out, p, *b);
    }
    p
}
