// "Parent and child", and which statuses a node's type lets it have.
ghost use Rattle.std.specs.Prelude.{◌≡◌};
ghost use Rattle.plexil.specs.Form.{is_idle, allowed, of_type, is_awaiting};

use plexil::Status;

// "Inactive, Waiting or Finished"
fn is_idle(c: Status) -> bool
    ensures { result ≡ is_idle c }
{
    matches!(c, Status::Inactive | Status::Waiting | Status::Finished)
}

// Executing or Failing: a node that may await a return
pub fn is_awaiting(c: Status) -> bool
    ensures { result ≡ is_awaiting c }
{
    matches!(c, Status::Executing | Status::Failing)
}

// c may stand under a parent of status u.
pub(crate) fn allowed(u: Status, c: Status) -> bool
    ensures { result ≡ allowed u c }
{
    match u {
        Status::Executing => true,
        Status::Finishing | Status::Failing => !matches!(c, Status::Inactive),
        _ => is_idle(c),
    }
}

// "Finishing occurs in lists only, Failing never in assignments, node 0 is never Inactive"
pub(crate) fn of_type(image: &[u8], i: u16, c: Status) -> bool
    ensures { result ≡ of_type image.now i c }
{
    match c {
        Status::Inactive => 0 < i,
        Status::Finishing => image::node_type(image, i) == 0,
        Status::Failing => image::node_type(image, i) != 2,
        _ => true,
    }
}
