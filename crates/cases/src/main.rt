// The case runner: reads the cases that the reference writes to its file stdin, calls what the C names call, or what hands back a part of a slice, and
// prints a line for each: the step, the number and the place, the lent numbers, a part's length and sum, and a sum over the whole of every lent slice. What
// it prints is held to the file stdout, which the reference, an implementation written apart, writes too (rust/reference, the program `cases`).
#![tactic(auto)]

mod judge_steps;
mod step;
mod steps;
mod table_steps;

use std::io;
use std::io::{BufWriter, Write};

fn main(rt: HostRuntime) -> io::Result<()> {
    let mut reader = rt.stdin();
    let mut out = BufWriter::new(rt.alloc(), rt.stdout())?;
    // By a count: of a reader no measure says that its input ends.
    for _ in 0..100000 {
        if !steps::one(&mut reader, &mut out)? {
            break;
        }
    }
    out.flush()
}
