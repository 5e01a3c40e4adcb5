// Verdict and generations, read off the rank words. Assumes nothing.
ghost use Rattle.std.specs.Prelude.{◌≡◌};
ghost use Rattle.model.specs.Ranks.{all_below, largest, positions, rank_words, acyclic, generations};
ghost use Rattle.rounds.specs.Table.{pairs, graph};

use crate::{Rank, Verdict};
use rounds::packed::{Packed, Ranks};
use rounds::words::ranked;

// Whether no word is 65,535.
fn finite(r: &[u16]) -> bool
    ensures { result ≡ all_below 65535 r.now }
{
    r.iter().all(|x| *x < Rank::ENDLESS)
}

// The largest word below 65,535.
fn deepest(r: &[u16]) -> u16
    ensures { result ≡ largest 65535 r.now }
{
    r.iter()
        .copied()
        .filter(|x| *x < Rank::ENDLESS)
        .max()
        .unwrap_or(0)
}

// The verdict and the rank words of the rules.
pub fn judged(rules: Packed, r: &mut Ranks) -> Verdict
    ensures words { r.new ≡ rank_words (graph (pairs rules.entry)) }
    ensures acyclic { result.acyclic ≡ acyclic positions (graph (pairs rules.entry)) }
    ensures generations { result.generations ≡ generations positions (graph (pairs rules.entry)) }
{
    ranked(rules, r);
    Verdict {
        acyclic: finite(r),
        generations: deepest(r),
    }
}
