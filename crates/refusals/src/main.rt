// A vector for each refusal number, run through the calls; a line for each case.
#![tactic(auto)]

mod calls;
mod images;
mod noticed;
mod refuse;

use std::io;

// An error of writing is passed over: what a case tells is held to a kept text, and a program that cannot write has nobody to tell.
fn pass_over(_written: io::Result<()>) {}

fn main(rt: HostRuntime) {
    images::all(&rt);
    calls::all(&rt);
    noticed::all(&rt);
}
