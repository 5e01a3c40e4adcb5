// The rules packed as spots and sizes, one rule after the other, body before head. Assumes good rules.
// `as` stands where the library has no lossless `From`; that the number fits is proved.
ghost use Rattle.std.specs.Prelude.{◌≡◌, [], ◌∷◌, ◌++◌, ◌+◌, ◌*◌, ◌≤◌, ◌<◌};
ghost use Rattle.arrayvec.specs.ArrayVec.{array_vec_len};
ghost use Rattle.rules.specs.Rules.{kind_of, atoms, rules_of, Good, GoodKind, GoodRules};
ghost use Rattle.model.specs.Edges.{spots_from, spots};
ghost use Rattle.rounds.specs.Table.{spots_in};
ghost use Rattle.ranks.specs.Packs.{atom_spots, heads_of, spots_of, sizes_of};

use arrayvec::ArrayVec;
use rounds::packed::{Size, Spot};
use rules::{Conclusion, Kind, Rule};

// The spots of all rules: at most 64 in each body and each head.
pub type Spots = ArrayVec<Spot, 8192>;

pub type Sizes = ArrayVec<Size, 64>;

// The spot of a variable at position q; a constant has none.
fn term_in(all: &mut Spots, k: Kind, q: u16)
    requires { (array_vec_len all.old < 8192) × GoodKind k × (q < 512) }
    ensures { spots_in all.new.items ≡ spots_in all.old.items ++ spots_from q (kind_of k ∷ []) }
{
    if let Kind::Var(x) = k {
        all.push(Spot { var: x, at: q });
    }
}

// The spots of the atom at place a of the rule.
fn atom_in(all: &mut Spots, rule: &Rule, a: usize)
    requires { (a < 16) × Good rule.now × (array_vec_len all.old + 8 ≤ 8192) }
    ensures { spots_in all.new.items ≡ spots_in all.old.items ++ atom_spots rule.now a }
{
    let first = 8 * u16::from(rule.shapes[a].rel);
    for (p, term) in rule.terms_of(a).iter().enumerate() {
        term_in(all, term.kind, first + p as u16);
    }
}

// The spots of k atoms of the rule, from place a on.
fn atoms_in(all: &mut Spots, rule: &Rule, a: usize, k: usize)
    requires { (a + k ≤ 16) × Good rule.now × (array_vec_len all.old + 8 * k ≤ 8192) }
    ensures { spots_in all.new.items ≡ spots_in all.old.items ++ spots (atoms rule.now a k) }
{
    for place in a..a + k {
        atom_in(all, rule, place);
    }
}

// How many head atoms give edges: none of an equation's.
fn heads(rule: &Rule) -> usize
    ensures { result ≡ heads_of rule.now.conclusion }
{
    match rule.conclusion {
        Conclusion::Head(atoms) => atoms,
        Conclusion::Sides(_, _) => 0,
    }
}

// The spots of all rules, and how many each body and each head has.
pub fn pack(rules: &[Rule], all: &mut Spots, sizes: &mut Sizes)
    requires { GoodRules rules.now × (all.old.items ≡ []) × (sizes.old.items ≡ []) }
    ensures spots { spots_in all.new.items ≡ spots_of (rules_of rules.now) }
    ensures sizes { sizes.new.items ≡ sizes_of (rules_of rules.now) }
{
    for rule in rules {
        let b = rule.body;
        let h = heads(rule);
        let start = all.len();
        atoms_in(all, rule, 0, b);
        let mid = all.len();
        atoms_in(all, rule, b, h);
        sizes.push(Size {
            body: mid - start,
            head: all.len() - mid,
        });
    }
}
