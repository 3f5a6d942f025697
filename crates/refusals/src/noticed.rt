// A comparison that cannot fail is no check: one place of each part of state, card and list is changed.
// All are numbers, the phase too, since C lends `State` and `Card` of plexil.
use super::pass_over;
use super::refuse::held;
use telling::{Left, kept};

fn told<F: FnOnce(&mut Left)>(rt: &impl Print, part: &str, change: F)
    requires { F.IsAlwaysCallable change }
{
    let mut left = held();
    change(&mut left);
    pass_over(print!(rt; "{part}{}", kept(held() == left)));
}

fn places(rt: &impl Print) {
    told(rt, " status", |l| l.state.status[0] = 2);
    told(rt, ", outcome", |l| l.state.outcome[255] = 3);
    told(rt, ", failure", |l| l.state.failure[128] = 2);
    told(rt, ", mark", |l| l.state.mark[255] = 0);
}

fn cells(rt: &impl Print) {
    told(rt, ", variable's kind", |l| l.state.vartags[127] = 1);
    told(rt, ", its value", |l| l.state.varbits[0] = 4);
    told(rt, ", lookup's kind", |l| l.state.looktags[0] = 1);
    told(rt, ", its value", |l| l.state.lookbits[63] = 7);
}

fn card(rt: &impl Print) {
    told(rt, ", serial", |l| l.card.serial = 8);
    told(rt, ", phase", |l| l.card.phase = 0);
}

fn list(rt: &impl Print) {
    let before = [9; 4];
    let after = [9u32, 9, 9, 8];
    pass_over(println!(rt; ", list{}", kept(before == after)));
}

pub(crate) fn all(rt: &impl Print) {
    pass_over(print!(rt; "one byte off:"));
    places(rt);
    cells(rt);
    card(rt);
    list(rt);
}
