// Plans drawn as bytes: a small assembler, and the plans that the programs of known ends run.
#![tactic(auto)]

mod events;
mod limits;
mod plans;
mod records;
mod write;

pub use events::{LOOKUP, RETURN, single, twice};
pub use limits::{depth_12, depth_13, nodes_256, nodes_257};
pub use plans::{
    childless, contest, counting, counting_looking, false_and_unknown, guarded, lone_command, over,
    pre_false, swap,
};
pub use write::{put, put16};
