// What stands at a node, and at its parent.
ghost use Rattle.std.specs.Prelude.{◌≡◌};
ghost use Rattle.plexil.specs.declared.State.{State};
ghost use Rattle.plexil.specs.Places.{status_at};
ghost use Rattle.plexil.specs.Atomic.{parent_status};

use plexil::{Status, get_or};

pub fn status_at(st: &[u8], i: u16) -> Status
    ensures { (s : State) → s.status ≡ st.now → result ≡ status_at s i }
{
    Status::from(get_or(st, i, 0))
}

// "Node 0 reads its parent as Executing"
pub fn parent_status(image: &[u8], st: &[u8], i: u16) -> Status
    ensures { (s : State) → s.status ≡ st.now → result ≡ parent_status image.now s i }
{
    if i == 0 {
        return Status::Executing;
    }
    status_at(st, image::parent(image, i))
}
