// Rounds of all rules until nothing changes, with larger and larger numbers for 'no largest'. Assumes zeros at first.
ghost use Rattle.std.specs.Prelude.{◌≡◌, true, false, ◌≤◌, ◌<◌, ltb};
ghost use Rattle.model.specs.Ranks.{sum};
ghost use Rattle.rounds.specs.Table.{pairs, graph};
ghost use Rattle.rounds.specs.Sweep.{sweep, Board, Sound, Settled, Free, Enough};

use crate::packed::{Packed, Ranks};
use crate::round::relaxed;

// A round of each rule; whether one changed anything.
fn swept(rules: Packed, cap: u16, r: &mut Ranks) -> bool
    requires { Board cap r.old }
    ensures { (r.new ≡ sweep cap r.old (pairs rules.entry)) × (result ≡ ltb (sum r.old) (sum r.new)) }
{
    let mut changed = false;
    let mut rest = rules.spots;
    for size in rules.sizes {
        let (body, more) = rest.split_at(size.body);
        let (head, more) = more.split_at(size.head);
        changed |= relaxed(body, head, cap, r);
        rest = more;
    }
    changed
}

// Rounds until nothing changes.
fn settled(rules: Packed, cap: u16, r: &mut Ranks)
    requires { Board cap r.old × Sound (graph (pairs rules)) r.old }
    ensures { Settled (graph (pairs rules.entry)) cap r.new }
{
    // A sweep that changes nothing ends it: there is no range to walk.
    while swept(rules, cap, r) {}
}

// Whether a larger number than c has to be tried.
fn goes(r: &Ranks, c: u16) -> bool
    requires { (0 < c) × (c ≤ 512) }
    ensures stop { result ≡ false → Enough r.now c }
    ensures go { result ≡ true → c < 512 }
{
    c < 512 && r.contains(&(c - 1))
}

// The number to try after c: half as large again, 2 at first and 512 at last.
fn larger(c: u16) -> u16
    requires { c < 512 }
    ensures { (c < result) × (result ≤ 512) }
{
    (c + c / 2 + 1).clamp(2, 512)
}

// Larger and larger numbers, until one can stand for 'no largest': that one.
pub fn leveled(rules: Packed, r: &mut Ranks) -> u16
    requires { Board 0 r.old }
    ensures { Settled (graph (pairs rules.entry)) result r.new × Enough r.new result }
{
    let mut c = 0;
    // The number that will do ends it: there is no range to walk.
    loop {
        c = larger(c);
        settled(rules, c, r);
        if !goes(r, c) {
            return c;
        }
    }
}
