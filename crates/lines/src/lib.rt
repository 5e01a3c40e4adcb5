// The line writer: a fact's words as a line of text in a lent buffer, refused by number and place, and the lines of many facts at once. Promised
// is that exactly the lines' bytes are set.
// `as` stands where the library has no lossless `From`; that the number fits is proved.
#![tactic(auto)]

ghost use Rattle.std.specs.Prelude.{◌+◌, ◌*◌, ◌≤◌, length};
ghost use Rattle.model.specs.Facts.{fact};
ghost use Rattle.model.specs.Words.{facts_of};
ghost use Rattle.model.specs.Lines.{value_text, values_text, line, lines};
ghost use Rattle.text.specs.Puts.{Space};
ghost use Rattle.text.specs.Writes.{Writes};
ghost use Rattle.lines.specs.Line.{LineContract};
ghost use Rattle.lines.specs.Rows.{Row, Rows, arity_in, fact_at};

use fields::{Fault, Refusal};
use text::Writer;

// A constant is its number, a blank its number behind #.
fn value(w: &mut Writer, v: u32)
    requires { Space (value_text v) w.old.at w.old.lent.now }
    ensures { Writes (value_text v) w.old w.new }
{
    if v < 2147483648 {
        w.number(u64::from(v));
    } else {
        w.byte(b'#');
        w.number(u64::from(v - 2147483648));
    }
}

// Each value behind a space.
#[tactic(auto, using(crate::proofs::Text::value_left))]
fn values(w: &mut Writer, vs: &[u32])
    requires { Space (values_text vs.now) w.old.at w.old.lent.now }
    ensures { Writes (values_text vs.now) w.old w.new }
{
    for v in vs {
        w.byte(b' ');
        value(w, *v);
    }
}

// Relation, values, line feed.
fn fact(w: &mut Writer, relation: u32, vs: &[u32])
    requires { Space (line (fact relation vs.now)) w.old.at w.old.lent.now }
    ensures { Writes (line (fact relation vs.now)) w.old w.new }
{
    w.number(u64::from(relation));
    values(w, vs);
    w.byte(b'\n');
}

// The line of the fact in nine words, whose relation has the arity; how many bytes are set.
pub fn line(words: &[u32], arity: usize, lent: &mut [u8]) -> Result<usize, Refusal>
    ensures { LineContract words.now arity lent.old result lent.new }
{
    if words.len() < 9 || lent.len() < 128 {
        return fields::refuse(Fault::Short, 0);
    }
    let relation = words[0];
    if 63 < relation || arity < 1 || 8 < arity {
        return fields::refuse(Fault::Limit, 0);
    }
    let mut w = Writer::new(lent);
    fact(&mut w, relation, &words[1..=arity]);
    Ok(w.at)
}

// The line of the fact in nine words.
fn row(w: &mut Writer, nine: &[u32; 9], arities: &[u8])
    requires row { Row nine.now arities.now 0 }
    requires at_in_bounds { w.old.at + 99 ≤ length w.old.lent.now }
    ensures { Writes (line (fact_at arities.now nine.now 0)) w.old w.new }
{
    let relation = nine[0];
    let arity = usize::from(arities[relation as usize]);
    fact(w, relation, &nine[1..=arity]);
}

// The lines of the first n facts in the words, each with its relation's arity.
pub fn facts(w: &mut Writer, words: &[u32], arities: &[u8], n: usize)
    requires rows { Rows words.now arities.now n }
    requires n_in_bounds { w.old.at + n * 99 ≤ length w.old.lent.now }
    ensures { Writes (lines (facts_of (arity_in arities.now) n words.now)) w.old w.new }
{
    let (rows, _) = words.as_chunks::<9>();
    for nine in &rows[..n] {
        row(w, nine, arities);
    }
}
