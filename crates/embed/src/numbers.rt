// Answers as numbers.
// `as` stands where the library has no lossless `From`; that the number fits is proved.
ghost use Rattle.std.specs.Prelude.{◌≡◌};
ghost use Rattle.chase.specs.Turned.{outcome_of};
ghost use Rattle.engine.specs.Answers.{run_answer_of, verdict_answer_of};
ghost use Rattle.lines.specs.Line.{of_written};
ghost use Rattle.embed.specs.Numbers.{outcome_number, run_numbers, verdict_numbers, line_numbers};

use chase::outcome::Ending;
use engine::Ran;
use fields::Refusal;
use ranks::Verdict;

// The number of an outcome, as C reads it.
fn of_ending(ending: Ending) -> u64
    ensures { result ≡ outcome_number (outcome_of ending) }
{
    match ending {
        Ending::Done => 0,
        Ending::Failed => 1,
        Ending::Steps => 2,
        Ending::Room => 3,
    }
}

// The numbers of a run's answer.
pub fn of_run(answer: Result<Ran, Refusal>) -> [u64; 7]
    ensures { result ≡ run_numbers (run_answer_of answer) }
{
    match answer {
        Ok(Ran { outcome, verdict }) => [
            0,
            of_ending(outcome.ending),
            outcome.steps as u64,
            outcome.facts as u64,
            u64::from(outcome.next),
            u64::from(verdict.acyclic),
            u64::from(verdict.generations),
        ],
        Err(refusal) => [
            u64::from(refusal.number),
            refusal.place as u64,
            0,
            0,
            0,
            0,
            0,
        ],
    }
}

// The numbers of a verdict's answer.
pub fn of_verdict(answer: Result<Verdict, Refusal>) -> [u64; 3]
    ensures { result ≡ verdict_numbers (verdict_answer_of answer) }
{
    match answer {
        Ok(
            Verdict {
                acyclic,
                generations,
            },
        ) => [0, u64::from(acyclic), u64::from(generations)],
        Err(refusal) => [u64::from(refusal.number), refusal.place as u64, 0],
    }
}

// The numbers of the line writer's answer.
pub fn of_line(answer: Result<usize, Refusal>) -> [u64; 2]
    ensures { result ≡ line_numbers (of_written answer) }
{
    match answer {
        Ok(count) => [0, count as u64],
        Err(Refusal { number, place }) => [u64::from(number), place as u64],
    }
}
