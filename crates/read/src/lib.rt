// Reading a text into a plan image: the refusals before there is an image, in their order, the image built apart, and handed on where the check admits it.
#![tactic(auto)]

mod delivery;
mod limits;
mod reading;
mod reply;
mod surveying;

pub use reading::read;
pub use reply::ReadReply;
