// One round of one rule: from the ranks at the body's positions what each variable offers, and the offers at the head's positions.
// Assumes small ranks.
ghost use Rattle.std.specs.Prelude.{◌≡◌, ◌<◌, ◌≤◌, ℕ, min, length, replicate, get_or, ltb, None, IfSome};
ghost use Rattle.model.specs.Ranks.{value, raise, sum};
ghost use Rattle.rounds.specs.Table.{spots_in};
ghost use Rattle.rounds.specs.Offers.{lift, top, given, pour, rule_round};

use crate::packed::{Ranks, Spot};

// At least v at p; whether that changed it.
fn raise_at(r: &mut [u16], p: usize, v: u16) -> bool
    requires { p < length r.old }
    ensures { (r.new ≡ raise r.old p v) × (result ≡ ltb (sum r.old) (sum r.new)) }
{
    let up = r[p] < v;
    if up {
        r[p] = v;
    }
    up
}

// For each variable the largest rank at its positions, None where it has none.
fn bests(body: &[Spot], ranks: &Ranks) -> [Option<u16>; 16]
    ensures { result ≡ lift (replicate 16 None) ranks.now (spots_in body.now) }
{
    let mut best = [None; 16];
    for s in body {
        let x = usize::from(s.var);
        best[x] = best[x].max(Some(ranks[usize::from(s.at)]));
    }
    best
}

// One more than the largest rank of the head's variables, 0 where the body has none of them.
fn tops(best: &[Option<u16>; 16], head: &[Spot]) -> u16
    requires { (x : ℕ) → IfSome (get_or best.now x None) (λ v. v < 65535) }
    ensures { result ≡ top best.now (spots_in head.now) }
{
    let mut t = 0;
    for s in head {
        if let Some(v) = best[usize::from(s.var)] {
            t = t.max(v + 1);
        }
    }
    t
}

// At each of the head's positions what its variable offers, an existential t; whether that changed anything.
fn poured(best: &[Option<u16>; 16], t: u16, head: &[Spot], r: &mut Ranks) -> bool
    ensures { (r.new ≡ pour (given best.now t) r.old (spots_in head.now)) × (result ≡ ltb (sum r.old) (sum r.new)) }
{
    let mut changed = false;
    for s in head {
        let v = best[usize::from(s.var)].unwrap_or(t);
        changed |= raise_at(r, usize::from(s.at), v);
    }
    changed
}

// The round; whether it changed anything.
pub fn relaxed(body: &[Spot], head: &[Spot], cap: u16, r: &mut Ranks) -> bool
    requires { (p : ℕ) → value r.old p ≤ 512 }
    ensures { (r.new ≡ rule_round cap r.old (spots_in body.now) (spots_in head.now)) × (result ≡ ltb (sum r.old) (sum r.new)) }
{
    let best = bests(body, r);
    let t = tops(&best, head).min(cap);
    poured(&best, t, head, r)
}
