// "Node rules": one function a status. What a rule reads is lent.
// finished and resting are two parameters: no plainer as a struct, since one rule reads the one and two rules the other, and each has a clause of its own.
ghost use Rattle.std.specs.Prelude.{◌≡◌, not, ◌∷◌, []};
ghost use Rattle.plexil.specs.declared.Status.TheVariants as status;
ghost use Rattle.plexil.specs.declared.Condition.TheVariants as condition;
ghost use Rattle.plexil.specs.Lists.{every};
ghost use Rattle.plexil.specs.Lent.{seen_lent, state_lent};
ghost use Rattle.plexil.specs.Places.{same};
ghost use Rattle.plexil.specs.Atomic.{children_by, children, is_finished, is_resting, is_off, from_waiting, fails_by, at_end, settled, from_ended, default_of, by_status, move_of};

use super::statuses::{is_closing, is_off};
use places::{parent_status, status_at};
use plexil::{Before, Condition, Effect, Move, Seen, Status, get_or};

// "Skip True, then Finished, Skipped. Else Start True: Pre True, then Executing ..; otherwise IterationEnded, Failure, Pre"
fn from_waiting(image: &[u8], seen: &Seen, i: u16) -> Move
    ensures { result ≡ from_waiting image.now (seen_lent seen.now) i }
{
    if evaluate::holds(image, seen, i, Condition::Skip, false) {
        return Move::Go(Status::Finished, Effect::Skipped);
    }
    if evaluate::holds(image, seen, i, Condition::Start, true) {
        if evaluate::holds(image, seen, i, Condition::Pre, true) {
            return Move::Go(Status::Executing, Effect::Kept);
        }
        return Move::Go(Status::IterationEnded, Effect::Failed(2, 1));
    }
    Move::Stay
}

// "A list or command goes to Failing ..; an assignment goes to IterationEnded without writing", with this outcome and failure
fn fails_by(image: &[u8], i: u16, outcome: u8, failure: u8) -> Move
    ensures { result ≡ fails_by image.now i outcome failure }
{
    if image::node_type(image, i) == 2 {
        return Move::Go(Status::IterationEnded, Effect::Failed(outcome, failure));
    }
    Move::Go(Status::Failing, Effect::Failed(outcome, failure))
}

// "a list goes to Finishing; a returned command goes to IterationEnded; an assignment writes and goes to IterationEnded"
fn at_end(image: &[u8], before: &Before, i: u16) -> Move
    ensures { result ≡ at_end image.now (state_lent before.now) i }
{
    match image::node_type(image, i) {
        0 => Move::Go(Status::Finishing, Effect::Kept),
        1 => if get_or(before.mark, i, 0) == 0 {
            Move::Stay
        } else {
            Move::Go(Status::IterationEnded, Effect::Judged)
        },
        _ => Move::Go(Status::IterationEnded, Effect::Judged),
    }
}

// "End True, but for a list all children Finished"
fn end_default(image: &[u8], seen: &Seen, i: u16, finished: bool) -> bool
    requires { finished ≡ children_by image.now seen.now.status.now i is_finished }
    ensures { result ≡ default_of image.now (seen_lent seen.now) i condition.End }
{
    image::node_type(image, i) != 0 || finished
}

// "parent Failing gives failure Parent; else Inv False gives Invariant"; else End True
fn from_executing(image: &[u8], before: &Before, i: u16, u: Status, finished: bool) -> Move
    requires { finished ≡ children image.now (state_lent before.now) i is_finished }
    ensures { result ≡ by_status status.Executing u image.now (state_lent before.now) i }
{
    if u == Status::Failing {
        return fails_by(image, i, 2, 4);
    }
    if evaluate::fails(image, &before.seen, i, Condition::Inv, true) {
        return fails_by(image, i, 2, 3);
    }
    if evaluate::holds(
        image,
        &before.seen,
        i,
        Condition::End,
        end_default(image, &before.seen, i, finished),
    ) {
        return at_end(image, before, i);
    }
    Move::Stay
}

// "the same two failures to Failing; else all children Waiting or Finished: IterationEnded"
fn from_finishing(image: &[u8], before: &Before, i: u16, u: Status, resting: bool) -> Move
    requires { resting ≡ children image.now (state_lent before.now) i is_resting }
    ensures { result ≡ by_status status.Finishing u image.now (state_lent before.now) i }
{
    if u == Status::Failing {
        return fails_by(image, i, 2, 4);
    }
    if evaluate::fails(image, &before.seen, i, Condition::Inv, true) {
        return fails_by(image, i, 2, 3);
    }
    if resting {
        return Move::Go(Status::IterationEnded, Effect::Judged);
    }
    Move::Stay
}

// "list with all children Waiting or Finished, or command returned: IterationEnded, outcome kept"
fn is_settled(image: &[u8], before: &Before, i: u16, resting: bool) -> bool
    requires { resting ≡ children image.now (state_lent before.now) i is_resting }
    ensures { result ≡ settled image.now (state_lent before.now) i }
{
    match image::node_type(image, i) {
        0 => resting,
        1 => get_or(before.mark, i, 0) != 0,
        _ => false,
    }
}

// "parent Finishing or Failing: Finished. Parent Executing: Repeat True gives Waiting, outcome and failure cleared; else Finished"
fn from_ended(image: &[u8], seen: &Seen, i: u16, u: Status) -> Move
    ensures { result ≡ from_ended u image.now (seen_lent seen.now) i }
{
    if is_closing(u) {
        return Move::Go(Status::Finished, Effect::Kept);
    }
    if u == Status::Executing {
        if evaluate::holds(image, seen, i, Condition::Repeat, false) {
            return Move::Go(Status::Waiting, Effect::Cleared);
        }
        return Move::Go(Status::Finished, Effect::Kept);
    }
    Move::Stay
}

// The rules of each status; u is the parent's.
fn by_status(
    image: &[u8],
    before: &Before,
    i: u16,
    own: Status,
    u: Status,
    finished: bool,
    resting: bool,
) -> Move
    requires finished_value { finished ≡ children image.now (state_lent before.now) i is_finished }
    requires resting_value { resting ≡ children image.now (state_lent before.now) i is_resting }
    ensures { result ≡ by_status own u image.now (state_lent before.now) i }
{
    match own {
        Status::Inactive if u == Status::Executing => Move::Go(Status::Waiting, Effect::Kept),
        Status::Waiting if u == Status::Executing => from_waiting(image, &before.seen, i),
        Status::Executing => from_executing(image, before, i, u, finished),
        Status::Finishing => from_finishing(image, before, i, u, resting),
        Status::Failing if is_settled(image, before, i, resting) => {
            Move::Go(Status::IterationEnded, Effect::Kept)
        }
        Status::IterationEnded => from_ended(image, &before.seen, i, u),
        _ => Move::Stay,
    }
}

// "Any status but Inactive, parent Inactive or Waiting"
fn is_cut_off(own: Status, u: Status) -> bool
    ensures { result ≡ every (not (same own status.Inactive) ∷ is_off u ∷ []) }
{
    if own == Status::Inactive {
        return false;
    }
    is_off(u)
}

// "First rule that applies"
pub fn move_of(image: &[u8], before: &Before, i: u16, finished: bool, resting: bool) -> Move
    requires finished_value { finished ≡ children image.now (state_lent before.now) i is_finished }
    requires resting_value { resting ≡ children image.now (state_lent before.now) i is_resting }
    ensures { result ≡ move_of image.now (state_lent before.now) i }
{
    let own = status_at(before.seen.status, i);
    let u = parent_status(image, before.seen.status, i);
    if is_cut_off(own, u) {
        return Move::Go(Status::Inactive, Effect::Cleared);
    }
    by_status(image, before, i, own, u, finished, resting)
}
