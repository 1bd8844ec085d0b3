// Sums over whole slices, in which the place of every element counts.
ghost use Rattle.std.specs.Prelude.{◌≡◌, ◌<◌, ℕ, ◌+◌, ◌*◌, ◌/◌, ◌%◌, ◌++◌, OnOk, length};
ghost use Rattle.std.specs.Io.KnownBytes.{Appends};
ghost use Rattle.case_output.specs.Fields.{field};
ghost use Rattle.case_output.specs.Sums.{added, sum};

use crate::show;
use std::io;
use std::io::Write;

// What an element of a slice counts as.
pub trait Element: Copy {
    ghost count: { Self → ℕ };

    fn count(self) -> u64
        ensures { result ≡ count self };
}

impl Element for u8 {
    ghost count = { λ b. b };

    fn count(self) -> u64 {
        u64::from(self)
    }
}

impl Element for u32 {
    ghost count = { λ w. w };

    fn count(self) -> u64 {
        u64::from(self)
    }
}

// A word of a row: both its halves.
impl Element for u64 {
    ghost count = { λ w. w % 4294967296 * 3 + w / 4294967296 };

    fn count(self) -> u64 {
        self % 4294967296 * 3 + self / 4294967296
    }
}

// The sum x and one element more.
fn added(x: u64, element: u64) -> u64
    ensures value { result ≡ added x element }
    ensures bound { result < 4294967296 }
{
    (x % 4294967296 * 31 + element % 4294967296) % 4294967296
}

fn of<T: Element>(s: &[T]) -> u64
    ensures { result ≡ sum T.count 0 s.now }
{
    let mut x = 0;
    for element in s {
        x = added(x, (*element).count());
    }
    x
}

// The sum of a slice, printed.
pub fn whole<W: Write, T: Element>(out: &mut W, s: &[T]) -> io::Result<()>
    ensures { OnOk result (Appends (W.contents out.old) (W.contents out.new) (field (sum T.count 0 s.now))) }
{
    show::number(out, of(s) as usize)
}

// How long a part that was handed back is, and its sum, printed.
pub fn part<W: Write, T: Element>(out: &mut W, part: &[T]) -> io::Result<()>
    ensures { OnOk result (Appends (W.contents out.old) (W.contents out.new) (field (length part.now) ++ field (sum T.count 0 part.now))) }
{
    show::number(out, part.len())?;
    whole(out, part)
}
