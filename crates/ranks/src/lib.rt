// Verdict, ranks and generations of a job's rules. Promised is that they are the paper's, and that words beyond the 512 stay. Assumes rules as the
// reader accepts them, and at least 512 lent words.
#![tactic(auto)]

mod reading;
mod table;

ghost use Rattle.std.specs.Prelude.{◌≤◌, length};
ghost use Rattle.rules.specs.Rules.{GoodRules};
ghost use Rattle.ranks.specs.Judges.{Judges};

use rounds::packed::Packed;
use rules::Rule;
use table::{Sizes, Spots};

// The rank of a position: a number of special edges, or 65,535 if there is no largest. A number and not an Option, since the lent ranks are read so
// through C.
#[derive(Clone, Copy, PartialEq, Eq, Debug)]
pub struct Rank {
    pub word: u16,
}

impl Rank {
    // The words of all positions: 64 relations of 8 places.
    pub const WORDS: usize = 512;
    // The word of a position without a largest number.
    pub const ENDLESS: u16 = 65535;
}

// Whether the rules are weakly acyclic, and how many times blanks can be invented from invented blanks.
#[derive(Clone, Copy, PartialEq, Eq, Debug)]
pub struct Verdict {
    pub acyclic: bool,
    pub generations: u16,
}

// The verdict on the rules, with the rank words of all positions set.
pub fn judge(rules: &[Rule], ranks: &mut [u16]) -> Verdict
    requires { GoodRules rules.now × (512 ≤ length ranks.old) }
    ensures { Judges rules.now ranks.old result ranks.new }
{
    let mut spots = Spots::new();
    let mut sizes = Sizes::new();
    table::pack(rules, &mut spots, &mut sizes);
    let packed = Packed {
        spots: spots.as_slice(),
        sizes: sizes.as_slice(),
    };
    let words = ranks.first_chunk_mut().unwrap();
    reading::judged(packed, words)
}
