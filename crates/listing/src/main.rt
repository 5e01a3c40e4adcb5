// A job on standard input, its listing on standard output. What is printed is proved in `print`.
#![tactic(auto)]

use std::io;

fn main(rt: HostRuntime) -> io::Result<()> {
    let mut job = [0u8; 65536];
    let n = input::read_full(&mut rt.stdin(), &mut job)?;
    let mut out = [0u8; 102400];
    let k = print::print(&job[..n], &mut out);
    rt.write_all(&out[..k])
}
