// A status and its code.
ghost use Rattle.std.specs.Prelude.{◌≡◌};
ghost use Rattle.plexil.specs.Places.{status_of, status_code};

use super::Status;

// Any other code is Inactive's.
impl From<u8> for Status {
    ghost from_gives = { λ code a. a ≡ status_of code };

    #[tactic(auto, using(crate::proofs::Statuses::other_code), unfolding(crate::specs::Places::status_of))]
    fn from(code: u8) -> Status {
        match code {
            1 => Status::Waiting,
            2 => Status::Executing,
            3 => Status::Finishing,
            4 => Status::Failing,
            5 => Status::IterationEnded,
            6 => Status::Finished,
            _ => Status::Inactive,
        }
    }
}

impl From<Status> for u8 {
    ghost from_gives = { λ a code. code ≡ status_code a };

    #[tactic(auto, unfolding(crate::specs::Places::status_code))]
    fn from(a: Status) -> u8 {
        match a {
            Status::Inactive => 0,
            Status::Waiting => 1,
            Status::Executing => 2,
            Status::Finishing => 3,
            Status::Failing => 4,
            Status::IterationEnded => 5,
            Status::Finished => 6,
        }
    }
}
