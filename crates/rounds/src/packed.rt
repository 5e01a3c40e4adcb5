// Packed rules: the spots of their variables, one rule after the other, body before head. Assumes nothing.
ghost use Rattle.std.specs.Prelude.{◌≡◌, ◌+◌, ◌<◌, ◌≤◌, length, sum_by};
ghost use Rattle.rounds.specs.declared.packed.Size.{Size};

// A rank for each position: 64 relations of 8 places.
pub type Ranks = [u16; 512];

// A variable and a position where it stands.
#[derive(Clone, Copy)]
pub struct Spot {
    pub var: u8,
    pub at: u16,
    pub ghost named: { var < 16 },
    pub ghost placed: { at < 512 },
}

// Written out, since a struct with a ghost field has no derived default.
impl Default for Spot {
    ghost is_default = { λ s. (s.var ≡ 0) × (s.at ≡ 0) };

    fn default() -> Self {
        Spot { var: 0, at: 0 }
    }
}

// How many spots a rule's body and its head have.
#[derive(Clone, Copy, Default)]
pub struct Size {
    pub body: usize,
    pub head: usize,
}

// The spots of all rules, of which there are enough for the sizes.
#[derive(Clone, Copy)]
pub struct Packed<'a> {
    pub spots: &'a [Spot],
    pub sizes: &'a [Size],
    pub ghost enough: { sum_by (λ (z : Size). z.body + z.head) sizes.now ≤ length spots.now },
}
