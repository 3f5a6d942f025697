// The small plans with known ends, run through the calls; a line for each case.
#![tactic(auto)]

mod ends;
mod small;

use std::io;

// An error of writing is passed over: what a case tells is held to a kept text, and a program that cannot write has nobody to tell.
fn pass_over(_written: io::Result<()>) {}

fn main(rt: HostRuntime) {
    small::all(&rt);
    ends::all(&rt);
}
