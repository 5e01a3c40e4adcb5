// The engine and the line writer as C and Rust call them: a slice crosses as a pointer and a length, a lent array as a pointer. Promised is what
// `embed` promises; nothing is asked of a caller but that its pointers and lengths are true. A crate of its own, since `embed` is a library that
// Rattle links.
#![tactic(auto)]

ghost use Rattle.embed.specs.Told.{RunTold, VerdictTold, LineTold};

// `engine::run`, with its answer as seven numbers.
#[unsafe(no_mangle)]
pub extern "C" fn ondajusta_run(
    job: &[u8],
    words: &mut [u32],
    ranks: &mut [u16],
    answer: &mut [u64; 7],
)
    ensures { RunTold job.now words.old ranks.old answer.new words.new ranks.new }
{
    embed::ondajusta_run(job, &mut *words, &mut *ranks, &mut *answer);
}

// `engine::verdict`, with its answer as three numbers.
#[unsafe(no_mangle)]
pub extern "C" fn ondajusta_verdict(job: &[u8], ranks: &mut [u16], answer: &mut [u64; 3])
    ensures { VerdictTold job.now ranks.old answer.new ranks.new }
{
    embed::ondajusta_verdict(job, &mut *ranks, &mut *answer);
}

// `lines::line`, with its answer as two numbers.
#[unsafe(no_mangle)]
pub extern "C" fn ondajusta_line(
    words: &[u32],
    arity: usize,
    line: &mut [u8],
    answer: &mut [u64; 2],
)
    ensures { LineTold words.now arity line.old answer.new line.new }
{
    embed::ondajusta_line(words, arity, &mut *line, &mut *answer);
}
