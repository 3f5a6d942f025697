// "Quiet means that no rule applies".
ghost use Rattle.std.specs.Prelude.{◌≡◌, ◌<◌};
ghost use Rattle.plexil.specs.Image.{node_count};
ghost use Rattle.plexil.specs.Lent.{state_lent};
ghost use Rattle.plexil.specs.Atomic.{move_of};
ghost use Rattle.plexil.specs.Micro.{stays, quiet};
ghost use Rattle.plexil.specs.Promises.{IsAdmitted};
ghost use Rattle.atomic.specs.Children.{Answered};

use atomic::{ChildTests, applies, move_of, test_children};
use plexil::{Before, all_below};

// No rule applies to node i.
fn stays(image: &[u8], before: &Before, tests: &ChildTests, i: u16) -> bool
    requires admitted { IsAdmitted image.now }
    requires i_bound { i < node_count image.now }
    requires answered { Answered image.now before.now.seen.status.now tests.now }
    ensures { result ≡ stays (move_of image.now (state_lent before.now) i) }
{
    let k = i as usize;
    !applies(move_of(image, before, i, tests.finished[k], tests.resting[k]))
}

// The state comes lent: by value it would stand on the stack once more.
#[tactic(auto, unfolding(plexil::specs::Micro::quiet))]
pub fn is_quiet(image: &[u8], before: &Before) -> bool
    requires { IsAdmitted image.now }
    ensures { result ≡ quiet image.now (state_lent before.now) }
{
    let tests = test_children(image, before.seen.status);
    all_below(
        image::node_count(image),
        |i| stays(image, before, &tests, i),
    )
}
