// The questions that the rules ask of a status.
ghost use Rattle.std.specs.Prelude.{◌≡◌};
ghost use Rattle.plexil.specs.Atomic.{is_off, is_closing, is_resting, is_finished};

use plexil::Status;

#[tactic(auto, using(plexil::proofs::Statuses::either, plexil::proofs::Statuses::neither), unfolding(plexil::specs::Atomic::is_off))]
pub fn is_off(a: Status) -> bool
    ensures { result ≡ is_off a }
{
    matches!(a, Status::Inactive | Status::Waiting)
}

#[tactic(auto, using(plexil::proofs::Statuses::either, plexil::proofs::Statuses::neither), unfolding(plexil::specs::Atomic::is_closing))]
pub fn is_closing(a: Status) -> bool
    ensures { result ≡ is_closing a }
{
    matches!(a, Status::Finishing | Status::Failing)
}

#[tactic(auto, using(plexil::proofs::Statuses::either, plexil::proofs::Statuses::neither), unfolding(plexil::specs::Atomic::is_resting))]
pub fn is_resting(a: Status) -> bool
    ensures { result ≡ is_resting a }
{
    matches!(a, Status::Waiting | Status::Finished)
}

pub fn is_finished(a: Status) -> bool
    ensures { result ≡ is_finished a }
{
    a == Status::Finished
}
