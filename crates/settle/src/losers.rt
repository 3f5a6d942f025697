// The losers: every node that wrote and does not lead its variable alone gets Failure, WriteLost.
ghost use Rattle.std.specs.Prelude.{◌≡◌};
ghost use Rattle.plexil.specs.declared.State.{State};
ghost use Rattle.plexil.specs.Order.{Carry, leads, lost, settle};
ghost use Rattle.plexil.specs.Promises.{IsAdmitted};

use plexil::get_or;

// It has its variable's greatest priority, and no other writer has it too.
fn leads(image: &[u8], node: &[u16], tied: &[u8], i: u16) -> bool
    ensures { (c : Carry) → c.node ≡ node.now → c.tied ≡ tied.now → result ≡ leads image.now c i }
{
    let v = image::what(image, i);
    get_or(node, v, 0) == i && get_or(tied, v, 0) == 0
}

fn lost(image: &[u8], wrote: &[bool], node: &[u16], tied: &[u8], i: u16) -> bool
    ensures { (c : Carry) → c.wrote ≡ wrote.now → c.node ≡ node.now → c.tied ≡ tied.now → result ≡ lost image.now c i }
{
    get_or(wrote, i, false) && !leads(image, node, tied, i)
}

// "Every loser gets Failure, WriteLost, whatever Post says", 2 and 5 by the codes that a state keeps.
pub fn settle_places(
    image: &[u8],
    wrote: &[bool; 256],
    node: &[u16],
    tied: &[u8],
    oc2: &mut [u8; 256],
    fl2: &mut [u8; 256],
)
    requires { IsAdmitted image.now }
    ensures { (s : State) (c : Carry) → c.wrote ≡ wrote.now → c.node ≡ node.now → c.tied ≡ tied.now → c.outcome ≡ oc2.old → c.failure ≡ fl2.old → (oc2.new ≡ (settle image.now s c).outcome) × (fl2.new ≡ (settle image.now s c).failure) }
{
    for i in 0..image::node_count(image) {
        if lost(image, wrote, node, tied, i) {
            oc2[i as usize] = 2;
            fl2[i as usize] = 5;
        }
    }
}
