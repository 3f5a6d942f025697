// The library that a host links: check, fresh start, run and turn, each over memory that the host lends.
#![tactic(auto, unfolding(plexil::specs::Replies::opened, crate::specs::Reports::verdict_report, crate::specs::Reports::run_report))]

mod calls;
mod entries;
mod reports;

pub use entries::{samblokur_check, samblokur_fresh, samblokur_run, samblokur_turn};
pub use reports::Report;
