// The listing's lines but those of the facts: outcome with its numbers, verdict with its generations, or the refusal alone.
ghost use Rattle.std.specs.Prelude.{◌≡◌, ◌+◌, ◌≤◌, length};
ghost use Rattle.model.specs.Answer.{outcome_text, verdict_text, refused_text};
ghost use Rattle.chase.specs.Turned.{outcome_of};
ghost use Rattle.text.specs.Writes.{Writes};
ghost use Rattle.text.specs.Listing.{first_line, second_line};

use super::Writer;
use chase::outcome::Ending;

// The ending's word.
fn word(ending: Ending) -> &'static [u8]
    ensures { result.now ≡ outcome_text (outcome_of ending) }
{
    match ending {
        Ending::Done => b"done",
        Ending::Failed => b"failed",
        Ending::Steps => b"steps",
        Ending::Room => b"room",
    }
}

// The verdict's word.
fn verdict(acyclic: bool) -> &'static [u8]
    ensures { result.now ≡ verdict_text acyclic }
{
    if acyclic { b"acyclic" } else { b"cyclic" }
}

impl Writer<'_> {
    // Outcome, steps, facts, next blank.
    #[tactic(auto, using(crate::proofs::Short::short))]
    pub fn first_line(&mut self, ending: Ending, steps: u64, facts: u64, next: u64)
        requires { self.old.at + 128 ≤ length self.old.lent.now }
        ensures { Writes (first_line (outcome_of ending) steps facts next) self.old self.new }
    {
        self.bytes(word(ending));
        self.behind(steps);
        self.behind(facts);
        self.behind(next);
        self.byte(b'\n');
    }

    // Verdict, generations.
    #[tactic(auto, using(crate::proofs::Short::short))]
    pub fn second_line(&mut self, acyclic: bool, generations: u64)
        requires { self.old.at + 128 ≤ length self.old.lent.now }
        ensures { Writes (second_line acyclic generations) self.old self.new }
    {
        self.bytes(verdict(acyclic));
        self.behind(generations);
        self.byte(b'\n');
    }

    // The line of a refused job.
    #[tactic(auto, using(crate::proofs::Short::short))]
    pub fn refused_line(&mut self, number: u64, place: u64)
        requires { self.old.at + 128 ≤ length self.old.lent.now }
        ensures { Writes (refused_text number place) self.old self.new }
    {
        self.bytes(b"refused");
        self.behind(number);
        self.bytes(b" at");
        self.behind(place);
        self.byte(b'\n');
    }
}
