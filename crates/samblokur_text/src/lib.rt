// The library that reads plans as text, apart from the executive's: it runs at the desk, so that what a cabinet links has no recursion in it.
#![tactic(auto)]

mod entries;

pub use entries::samblokur_read;
