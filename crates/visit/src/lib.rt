// "a visit reads only the state before the step and what earlier visits carried on", and the walk over the nodes in order.
// What a node sends is a number: what may not change, atomic::sent_by, a public function, answers it. So is a tie, in the definition meet.
// finished and resting are two parameters, as move_of of atomic, a public function, takes them.
#![tactic(auto)]

ghost use Rattle.std.specs.Prelude.{◌≡◌, not, ℕ, ◌<◌, set, length};
ghost use Rattle.plexil.specs.Lists.{all_below, renew};
ghost use Rattle.plexil.specs.Image.{node_count};
ghost use Rattle.plexil.specs.Lent.{state_lent};
ghost use Rattle.plexil.specs.Atomic.{children, is_finished, is_resting, move_of};
ghost use Rattle.atomic.specs.Children.{Answered};
ghost use Rattle.plexil.specs.Micro.{sent as sentOf, stays};
ghost use Rattle.plexil.specs.Order.{put_place, meet, visit, walk_to};
ghost use Rattle.plexil.specs.Carried.{carry_in};
ghost use Rattle.plexil.specs.Promises.{IsAdmitted, IsKept};

use atomic::{ChildTests, applies, move_of, place_by, sent_by, writes};
use plexil::{Before, Carry, Cell, Place};

// The next places so far, with node i's, and whether it wrote.
fn put_place(carry: &mut Carry, i: u16, r: Place, w: bool)
    requires { i < 256 }
    ensures { carry_in carry.new ≡ put_place (carry_in carry.old) i r w }
{
    let k = i as usize;
    carry.status[k] = r.status;
    carry.outcome[k] = r.outcome;
    carry.failure[k] = r.failure;
    carry.mark[k] = r.mark;
    carry.wrote[k] = w;
}

// A writer i of variable v: it leads, or is tied with the leader, or is beaten. mine is one more than its priority.
// Two tests: no plainer by `cmp`, where the third case would have an empty arm.
fn meet_writer(carry: &mut Carry, v: u16, mine: u32, i: u16, x: Cell)
    requires { v < 128 }
    ensures { carry_in carry.new ≡ meet (carry_in carry.old) v mine i x }
{
    let k = v as usize;
    let best = carry.top[k];
    if best < mine {
        carry.top[k] = mine;
        carry.node[k] = i;
        carry.tags[k] = x.tag;
        carry.bits[k] = x.bits;
        carry.tied[k] = 0;
        return;
    }
    if best == mine {
        carry.tied[k] = 1;
    }
}

// Whether a rule applied.
fn visit_node(
    image: &[u8],
    before: &Before,
    i: u16,
    finished: bool,
    resting: bool,
    carry: &mut Carry,
    sent: &mut [u8; 256],
) -> bool
    requires { IsAdmitted image.now × IsKept image.now (state_lent before.now) × (i < node_count image.now) × (finished ≡ children image.now (state_lent before.now) i is_finished) × (resting ≡ children image.now (state_lent before.now) i is_resting) }
    ensures { (result ≡ not (stays (move_of image.now (state_lent before.now) i)))
        × (carry_in carry.new ≡ visit image.now (state_lent before.now) (carry_in carry.old) i)
        × (sent.new ≡ set sent.old i (sentOf image.now (state_lent before.now) i)) }
{
    let m = move_of(image, before, i, finished, resting);
    let r = place_by(image, before, i, m);
    let w = writes(image, i, m);
    put_place(carry, i, r, w);
    let k = i as usize;
    sent[k] = sent_by(image, before.mark, i, m);
    if w {
        let v = evaluate::value_of(image, &before.seen, image::value_field(image, i));
        let mine = image::priority(image, i) as u32 + 1;
        meet_writer(carry, image::what(image, i), mine, i, values::encode(v));
        return applies(m);
    }
    applies(m)
}

// Whether a rule applied to any of the n nodes.
pub fn walk(
    image: &[u8],
    before: &Before,
    n: u16,
    tests: &ChildTests,
    carry: &mut Carry,
    sent: &mut [u8; 256],
) -> bool
    requires { IsAdmitted image.now × IsKept image.now (state_lent before.now) × (n ≡ node_count image.now) × (length sent.old ≡ 256) × Answered image.now before.now.seen.status.now tests.now }
    ensures { (result ≡ not (all_below (node_count image.now) (λ (i : ℕ). stays (move_of image.now (state_lent before.now) i))))
        × (carry_in carry.new ≡ walk_to image.now (state_lent before.now) (carry_in carry.old) (node_count image.now))
        × (sent.new ≡ renew (node_count image.now) (sentOf image.now (state_lent before.now)) sent.old) }
{
    let mut moved = false;
    for i in 0..n {
        let k = i as usize;
        moved |= visit_node(
            image,
            before,
            i,
            tests.finished[k],
            tests.resting[k],
            carry,
            sent,
        );
    }
    moved
}
