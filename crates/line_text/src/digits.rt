// Numbers as text: a digit, a number in a base, a word of 16 hexadecimal digits.
ghost use Rattle.std.specs.Prelude.{◌≡◌, ◌≤◌};
ghost use Rattle.line_text.specs.Digits.{digit_of, number_of, decimal_of, word_of};

// The digit that the byte stands for, in upper or lower case, if it is one. Not by `char::to_digit`: with that, numbers of many digits
// took 1.4 to 1.8 times as long.
#[tactic(auto, unfolding(crate::specs::Digits::digit_of))]
pub fn digit(b: u8) -> Option<u64>
    ensures { result ≡ digit_of b }
{
    match b {
        b'0'..=b'9' => Some(u64::from(b - b'0')),
        b'A'..=b'F' => Some(u64::from(b - b'A') + 10),
        b'a'..=b'f' => Some(u64::from(b - b'a') + 10),
        _ => None,
    }
}

// The number whose digits in a base are t, if they are digits and a u64 holds it. No `from_str_radix`, which takes a sign, and text.
#[tactic(auto, using(crate::specs::DigitLaws::ends))]
pub fn number_in(base: u64, t: &[u8]) -> Option<u64>
    requires { (2 ≤ base) × (base ≤ 16) }
    ensures { result ≡ number_of base t.now }
{
    let mut v = 0u64;
    for b in t {
        let d = digit(*b)?;
        if base <= d {
            return None;
        }
        v = v.checked_mul(base)?.checked_add(d)?;
    }
    Some(v)
}

// One decimal digit or more.
pub fn decimal(t: &[u8]) -> Option<u64>
    ensures { result ≡ decimal_of t.now }
{
    if t.is_empty() {
        return None;
    }
    number_in(10, t)
}

// Just 16 hexadecimal digits.
#[tactic(auto, unfolding(crate::specs::Digits::word_of))]
pub fn word(t: &[u8]) -> Option<u64>
    ensures { result ≡ word_of t.now }
{
    if t.len() == 16 {
        number_in(16, t)
    } else {
        None
    }
}
