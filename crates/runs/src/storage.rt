// What a run leaves in storage that is lent eight words longer than it needs: the zeros behind the last fact, the words beyond, and the ranks.
ghost use Rattle.std.specs.Prelude.{◌≤◌};

use std::fmt::Display;
use std::io;

// A table behind a line with its name, eight numbers to a line. What can't be written is passed over; the first fault is told.
fn table<N: Display + Copy + Drop>(rt: &impl Print, name: &str, numbers: &[N]) -> io::Result<()> {
    let mut whole = print!(rt; "{name}\n");
    for (i, n) in numbers.iter().enumerate() {
        let end = if i % 8 == 7 { "\n" } else { " " };
        let printed = print!(rt; "{}", *n);
        whole = whole.and(printed).and(print!(rt; "{end}"));
    }
    whole
}

// The storage of a run whose facts take so many words.
pub(crate) fn show(
    rt: &impl Print,
    words: &[u32; 9224],
    ranks: &[u16; 520],
    used: usize,
) -> io::Result<()>
    requires { used ≤ 9216 }
{
    let zeros = words[used..9216].iter().filter(|word| **word == 0).count();
    let named = print!(rt; "zeros ");
    let counted = print!(rt; "{zeros}");
    let ended = print!(rt; "\n");
    let beyond = table(rt, "beyond", &words[9216..]);
    let ranked = table(rt, "ranks", ranks);
    named.and(counted).and(ended).and(beyond).and(ranked)
}
