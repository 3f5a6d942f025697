// The image of a text: its declarations, its nodes and lists, and its expressions, each read by functions of that name into the image's records.
// The image and the array of what is pending are lent by two arguments, here and in each file (no heap, fixed memory): a struct of both would only be made and taken apart, since `sections` keeps the one and `read` the other.
#![tactic(auto)]

mod attributes;
mod building;
mod declarations;
mod entries;
mod expressions;
mod known;
mod laying;
mod leaves;
mod literals;
mod nodes;
mod paths;
mod pending;
mod rows;
mod steps;
mod write;

pub use building::build;
