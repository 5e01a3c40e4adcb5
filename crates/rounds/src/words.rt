// The rank words of packed rules. Assumes nothing.
ghost use Rattle.std.specs.Prelude.{◌≡◌, map};
ghost use Rattle.model.specs.Ranks.{rank_words};
ghost use Rattle.rounds.specs.Table.{pairs, graph};
ghost use Rattle.rounds.specs.Sweep.{word_from};

use crate::packed::{Packed, Ranks};
use crate::settle::leveled;

// All numbers as words: 65,535, which is `ENDLESS` in the ranks crate above, for one that is c or more.
fn finished(r: &mut Ranks, c: u16)
    ensures { r.new ≡ map (word_from c) r.old }
{
    for x in r.iter_mut() {
        if c <= *x {
            *x = 65535;
        }
    }
}

// The rank words of the rules.
pub fn ranked(rules: Packed, r: &mut Ranks)
    ensures { r.new ≡ rank_words (graph (pairs rules.entry)) }
{
    r.fill(0);
    let c = leveled(rules, r);
    finished(r, c);
}
