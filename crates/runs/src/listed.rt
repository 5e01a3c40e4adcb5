// A job's run in storage that is lent eight words longer than it needs and filled with sevens, and its listing, one fact after the other by the
// line writer. It is put together here and not by `print`, so that the line writer is tried fact by fact.
// `as` stands where the library has no lossless `From`; that the number fits is proved.
ghost use Rattle.std.specs.Prelude.{◌<◌, ◌≤◌, length};

use crate::storage;
use engine::Ran;
use fields::Refusal;
use std::io;
use text::Writer;

// The arity that the job declares for a relation.
fn arity(job: &[u8], relation: u32) -> usize {
    job.get(relation as usize + 8)
        .map_or(0, |arity| usize::from(*arity))
}

// The line of the fact in nine words.
fn fact(rt: &impl Print, nine: &[u32], job: &[u8]) -> io::Result<()>
    requires { 0 < length nine.now }
{
    let mut line = [0u8; 128];
    let Ok(n) = lines::line(nine, arity(job, nine[0]), &mut line) else {
        return Err(io::ErrorKind::InvalidData.into());
    };
    rt.write_all(line.get(..n).ok_or(io::ErrorKind::InvalidData)?)
}

// The line of a refused job.
fn refused(rt: &impl Print, refusal: Refusal) -> io::Result<()> {
    let mut line = [0u8; 128];
    let mut w = Writer::new(&mut line);
    w.refused_line(u64::from(refusal.number), refusal.place as u64);
    rt.write_all(w.written())
}

// The first two lines of a run, each put by itself.
#[tactic(auto, using(text::proofs::Short::short_lines))]
fn head(rt: &impl Print, ran: Ran) -> io::Result<()> {
    let mut lines = [0u8; 256];
    let mut w = Writer::new(&mut lines);
    let outcome = ran.outcome;
    w.first_line(
        outcome.ending,
        outcome.steps as u64,
        outcome.facts as u64,
        u64::from(outcome.next),
    );
    let first = rt.write_all(w.written());
    let mut w = Writer::new(&mut lines);
    let verdict = ran.verdict;
    w.second_line(verdict.acyclic, u64::from(verdict.generations));
    first.and(rt.write_all(w.written()))
}

// The lines of the facts, up to one that can't be written.
fn facts(rt: &impl Print, job: &[u8], words: &[u32; 9224], count: usize) -> io::Result<()> {
    for nine in words[..9216].chunks_exact(9).take(count) {
        fact(rt, nine, job)?;
    }
    Ok(())
}

// The listing; how many words the facts take, none where the job was refused. What can't be written is passed over, so that the jobs behind it
// are still run.
fn told(rt: &impl Print, job: &[u8], words: &[u32; 9224], answer: Result<Ran, Refusal>) -> usize
    ensures { result ≤ 9216 }
{
    match answer {
        Ok(ran) => {
            let _ = head(rt, ran);
            let count = ran.outcome.facts;
            let _ = facts(rt, job, words, count);
            count.min(1024) * 9
        }
        Err(refusal) => {
            let _ = refused(rt, refusal);
            0
        }
    }
}

// The listing of a job, and with it its storage where that is asked for, which has to be written whole.
pub(crate) fn list(rt: &impl Print, job: &[u8], stored: bool) -> io::Result<()> {
    let mut words = [7u32; 9224];
    let mut ranks = [7u16; 520];
    let answer = engine::run(job, &mut words, &mut ranks);
    let used = told(rt, job, &words, answer);
    if stored {
        storage::show(rt, &words, &ranks, used)?;
    }
    Ok(())
}
