// What a write answered.
use std::io;

// An error of writing is passed over: what a case tells is held to a kept text, and a program that cannot write has nobody to tell.
pub(crate) fn pass_over(_written: io::Result<()>) {}
