// The listing of a job as bytes: the run's answer, its first two lines and a line for each fact, or the refusal alone. Promised is that exactly
// the paper's listing is set. Assumes 102,400 lent bytes, which are always enough.
// `as` stands where the library has no lossless `From`; that the number fits is proved.
#![tactic(auto)]

ghost use Rattle.std.specs.Prelude.{◌≡◌, ◌++◌, ◌+◌, ◌≤◌, length, take, drop};
ghost use Rattle.model.specs.Words.{padded, facts_of};
ghost use Rattle.model.specs.Lines.{lines};
ghost use Rattle.model.specs.Answer.{listing_of};
ghost use Rattle.io.specs.Counts.{IsPrefixLen};
ghost use Rattle.chase.specs.Turned.{outcome_of};
ghost use Rattle.text.specs.Puts.{Puts};
ghost use Rattle.text.specs.Writes.{Writes};
ghost use Rattle.text.specs.Listing.{first_line, second_line};
ghost use Rattle.lines.specs.Rows.{Rows, arity_in};

use engine::Ran;
use text::Writer;

// The arities that a job declares for its n relations, zero where there is no such relation.
fn arities(job: &[u8], n: usize) -> [u8; 64]
    requires { (n ≤ 64) × (8 + n ≤ length job.now) }
    ensures { result ≡ padded 64 (take n (drop 8 job.now)) }
{
    let mut table = [0u8; 64];
    table[..n].copy_from_slice(&job[8..8 + n]);
    table
}

// The listing of a run.
#[tactic(auto, using(text::proofs::Short::short_lines))]
fn listed(w: &mut Writer, words: &[u32], table: &[u8], ran: Ran)
    requires rows { Rows words.now table.now ran.outcome.facts }
    requires facts_bound { (ran.outcome.facts ≤ 1024) × (w.old.at + 102400 ≤ length w.old.lent.now) }
    ensures { Writes (first_line (outcome_of ran.outcome.ending) ran.outcome.steps ran.outcome.facts ran.outcome.next ++ (second_line ran.verdict.acyclic ran.verdict.generations ++ lines (facts_of (arity_in table.now) ran.outcome.facts words.now))) w.old w.new }
{
    let outcome = ran.outcome;
    let verdict = ran.verdict;
    w.first_line(
        outcome.ending,
        outcome.steps as u64,
        outcome.facts as u64,
        u64::from(outcome.next),
    );
    w.second_line(verdict.acyclic, u64::from(verdict.generations));
    lines::facts(w, words, table, outcome.facts);
}

// The listing of a job.
pub fn print(job: &[u8], out: &mut [u8]) -> usize
    requires { 102400 ≤ length out.old }
    ensures puts { Puts (listing_of job.now) 0 out.old result out.new }
    ensures prefix_len { IsPrefixLen result out.new }
{
    let mut words = [0u32; 9216];
    let mut ranks = [0u16; 512];
    let answer = engine::run(job, &mut words, &mut ranks);
    let mut w = Writer::new(out);
    match answer {
        Ok(ran) => {
            let table = arities(job, usize::from(job[7]));
            listed(&mut w, &words, &table, ran);
            w.at
        }
        Err(refusal) => {
            let number = u64::from(refusal.number);
            let place = refusal.place as u64;
            w.refused_line(number, place);
            w.at
        }
    }
}
