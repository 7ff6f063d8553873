// The fields of a line: what stands between spaces.
ghost use Rattle.std.specs.Prelude.{◌≡◌, ◌≤◌, eqb, not, length};
ghost use Rattle.std.specs.List.{position_or_len};
ghost use Rattle.line_text.specs.Fields.{Field};

// A part of a line, from one index up to another. No Range, which is no Copy.
#[derive(Clone, Copy)]
pub struct Span {
    pub from: usize,
    pub to: usize,
}

// How many spaces stand in front. This and the next differ in a test: one function for both would take it as a closure, with a
// clause on what the closure answers, and be longer than the two.
fn spaces(t: &[u8]) -> usize
    ensures value { result ≡ position_or_len (λ b. not (eqb b 32)) t.now }
    ensures upper_bound { result ≤ length t.now }
{
    t.iter().position(|b| *b != b' ').unwrap_or(t.len())
}

// How many bytes stand in front of the first space.
fn until_space(t: &[u8]) -> usize
    ensures value { result ≡ position_or_len (λ b. eqb b 32) t.now }
    ensures upper_bound { result ≤ length t.now }
{
    t.iter().position(|b| *b == b' ').unwrap_or(t.len())
}

// The next field from `at` on, empty where none is left.
pub fn next(s: &[u8], at: usize) -> Span
    requires { at ≤ length s.now }
    ensures { Field s.now at result }
{
    let from = at + spaces(&s[at..]);
    let to = from + until_space(&s[from..]);
    Span { from, to }
}
