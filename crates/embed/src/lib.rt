// The engine and the line writer with answers as numbers, for C and Rust. Promised are the engine's answers and contents of lent slices, told as
// numbers; nothing is asked of a caller.
#![tactic(auto)]

pub mod numbers;

ghost use Rattle.embed.specs.Told.{RunTold, VerdictTold, LineTold};

// `engine::run`, with its answer as seven numbers.
pub fn ondajusta_run(job: &[u8], words: &mut [u32], ranks: &mut [u16], answer: &mut [u64; 7])
    ensures { RunTold job.now words.old ranks.old answer.new words.new ranks.new }
{
    let ran = engine::run(job, words, ranks);
    *answer = numbers::of_run(ran);
}

// `engine::verdict`, with its answer as three numbers.
pub fn ondajusta_verdict(job: &[u8], ranks: &mut [u16], answer: &mut [u64; 3])
    ensures { VerdictTold job.now ranks.old answer.new ranks.new }
{
    let judged = engine::verdict(job, ranks);
    *answer = numbers::of_verdict(judged);
}

// `lines::line`, with its answer as two numbers.
pub fn ondajusta_line(words: &[u32], arity: usize, line: &mut [u8], answer: &mut [u64; 2])
    ensures { LineTold words.now arity line.old answer.new line.new }
{
    let written = lines::line(words, arity, line);
    *answer = numbers::of_line(written);
}
