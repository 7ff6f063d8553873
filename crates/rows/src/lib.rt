// A number in groups of seven bits, lowest group first, top bit set when another follows; no needless last group. And the copy
// that those who put rows make.

#![tactic(auto)]

ghost use Rattle.std.specs.Prelude.{◌+◌, ◌<◌, ◌≤◌, drop, length, ◌++◌, ◌≡◌};
ghost use Rattle.rows.specs.Groups.{Took, groups, tenth_at};
ghost use Rattle.rows.specs.Puts.{Put};

// What stands at an index, and where it ends.
#[derive(Clone, Copy, Debug, PartialEq, Eq)]
pub struct Taken<T> {
    pub value: T,
    pub next: usize,
}

// The tenth group, at p, behind nine that make v: it is the bit of weight w, and is not needless.
#[tactic(auto, unfolding(crate::specs::Groups::tenth_at))]
fn take_tenth(s: &[u8], p: usize, v: u64, w: u64) -> Option<Taken<u64>>
    requires { v + w < 18446744073709551616 }
    ensures { result ≡ tenth_at s.now p v w }
{
    if *s.get(p)? == 1 {
        Some(Taken {
            value: v + w,
            next: p + 1,
        })
    } else {
        None
    }
}

// The number at an index: the first group, up to eight more of seven bits, and a tenth of one bit, since ten groups hold
// more than 64 bits.
pub fn take(s: &[u8], at: usize) -> Option<Taken<u64>>
    ensures { Took s.now at result }
{
    let first = u64::from(*s.get(at)?);
    if first < 128 {
        return Some(Taken {
            value: first,
            next: at + 1,
        });
    }
    let mut v = first - 128;
    let mut w = 128u64;
    for i in 1..9 {
        let b = u64::from(*s.get(at + i)?);
        // a last group of 0 is needless
        if b < 128 {
            if b == 0 {
                return None;
            }
            return Some(Taken {
                value: v + w * b,
                next: at + i + 1,
            });
        }
        v += w * (b - 128);
        w *= 128;
    }
    take_tenth(s, at + 9, v, w)
}

// Puts n at an index, and answers where it ends.
pub fn put(n: u64, out: &mut [u8], at: usize) -> usize
    requires { at + 10 ≤ length out.old }
    ensures { Put out.old at (groups n) out.new result }
{
    let mut m = n;
    let mut p = at;
    // not a `for`: m alone says how many groups there are
    while 128 <= m {
        out[p] = (m % 128 + 128) as u8;
        m = m / 128;
        p += 1;
    }
    out[p] = m as u8;
    p + 1
}

// Copies t to the start of out. Not by `copy_from_slice`: that would be a memcpy, which the archive may not call, and what it has
// in its place took five instructions for each byte, a quarter of all that writing a record took.
// Nor by `out.iter_mut().zip(t)`, tried: behind that loop a proof knows how long out is, and not what it holds.
pub fn copy<T: Copy>(t: &[T], out: &mut [T])
    requires { length t.now ≤ length out.old }
    ensures { out.new ≡ t.now ++ drop (length t.now) out.old }
{
    for (i, x) in t.iter().enumerate() {
        out[i] = *x;
    }
}
