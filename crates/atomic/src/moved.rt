// What a move makes of its node's place before the losers are settled, what it sends, and whether it writes.
ghost use Rattle.std.specs.Prelude.{◌≡◌, not, ◌∷◌, []};
ghost use Rattle.plexil.specs.declared.State.{State};
ghost use Rattle.plexil.specs.declared.Effect.{Effect};
ghost use Rattle.plexil.specs.declared.Effect.TheVariants as effect;
ghost use Rattle.plexil.specs.declared.Move.TheVariants as move;
ghost use Rattle.plexil.specs.Lists.{every};
ghost use Rattle.plexil.specs.Lent.{state_lent};
ghost use Rattle.plexil.specs.Records.{is_writer};
ghost use Rattle.plexil.specs.Micro.{is_judged, judges, mark_by, ending_by, place_by, sent_by, stays};
ghost use Rattle.atomic.specs.Ending.{ending_of};

use plexil::{Before, Condition, Effect, Move, Place, Status, get_or};

// "The mark clears on leaving for IterationEnded"; "Executing (a command issues its word, mark clear)"
fn mark_by(before: &Before, i: u16, a: Status) -> u8
    ensures { result ≡ mark_by (state_lent before.now) i a }
{
    match a {
        Status::IterationEnded | Status::Executing => 0,
        _ => get_or(before.mark, i, 0),
    }
}

// A node's outcome and failure.
#[derive(Clone, Copy)]
pub struct Ending {
    pub outcome: u8,
    pub failure: u8,
}

// "gives Success, failure none, if Post is True, else Failure, Post"
fn judged(image: &[u8], before: &Before, i: u16) -> Ending
    ensures { result ≡ ending_of (ending_by image.now (state_lent before.now) i effect.Judged) }
{
    if evaluate::holds(image, &before.seen, i, Condition::Post, true) {
        return Ending {
            outcome: 1,
            failure: 0,
        };
    }
    Ending {
        outcome: 2,
        failure: 2,
    }
}

// What an effect makes of them.
fn ending_by(image: &[u8], before: &Before, i: u16, e: Effect) -> Ending
    ensures { result ≡ ending_of (ending_by image.now (state_lent before.now) i e) }
{
    match e {
        Effect::Kept => Ending {
            outcome: get_or(before.seen.outcome, i, 0),
            failure: get_or(before.seen.failure, i, 0),
        },
        Effect::Cleared => Ending {
            outcome: 0,
            failure: 0,
        },
        Effect::Skipped => Ending {
            outcome: 3,
            failure: get_or(before.seen.failure, i, 0),
        },
        Effect::Failed(o, f) => Ending {
            outcome: o,
            failure: f,
        },
        Effect::Judged => judged(image, before, i),
    }
}

// Status a with effect e.
fn gone(image: &[u8], before: &Before, i: u16, a: Status, e: Effect) -> Place
    ensures { result ≡ place_by image.now (state_lent before.now) i (move.Go a e) }
{
    let r = ending_by(image, before, i, e);
    Place {
        status: u8::from(a),
        outcome: r.outcome,
        failure: r.failure,
        mark: mark_by(before, i, a),
    }
}

// place_by and sent_by share the match of a move alone: what may not change, both are public, and the definitions have them apart.
// "What a rule does not name stays"
pub fn place_by(image: &[u8], before: &Before, i: u16, m: Move) -> Place
    ensures { result ≡ place_by image.now (state_lent before.now) i m }
{
    match m {
        Move::Stay => Place {
            status: get_or(before.seen.status, i, 0),
            outcome: get_or(before.seen.outcome, i, 0),
            failure: get_or(before.seen.failure, i, 0),
            mark: get_or(before.mark, i, 0),
        },
        Move::Go(a, e) => gone(image, before, i, a, e),
    }
}

// A command's word on going to Executing, an abort on going to Failing where it has not returned.
fn sent_on(image: &[u8], mk: &[u8], i: u16, a: Status) -> u8
    ensures { (s : State) (e : Effect) → s.mark ≡ mk.now → result ≡ sent_by image.now s i (move.Go a e) }
{
    if image::node_type(image, i) != 1 {
        return 0;
    }
    match a {
        Status::Executing => 1,
        Status::Failing => if get_or(mk, i, 0) == 0 { 2 } else { 0 },
        _ => 0,
    }
}

// 0 nothing, 1 the command's word, 2 an abort. A number, as the definition sent_by has it and the array of a step's words keeps it.
pub fn sent_by(image: &[u8], mk: &[u8], i: u16, m: Move) -> u8
    ensures { (s : State) → s.mark ≡ mk.now → result ≡ sent_by image.now s i m }
{
    match m {
        Move::Stay => 0,
        Move::Go(a, _) => sent_on(image, mk, i, a),
    }
}

// Case by case: of `matches!` over the effect inside the move the proof did not close.
#[tactic(auto, unfolding(plexil::specs::Micro::is_judged))]
fn is_judged(e: Effect) -> bool
    ensures { result ≡ is_judged e }
{
    match e {
        Effect::Kept => false,
        Effect::Cleared => false,
        Effect::Skipped => false,
        Effect::Failed(_, _) => false,
        Effect::Judged => true,
    }
}

#[tactic(auto, unfolding(plexil::specs::Micro::judges))]
fn judges(m: Move) -> bool
    ensures { result ≡ judges m }
{
    match m {
        Move::Stay => false,
        Move::Go(_, e) => is_judged(e),
    }
}

// "an assignment writes and goes to IterationEnded"
pub fn writes(image: &[u8], i: u16, m: Move) -> bool
    ensures { result ≡ every (is_writer image.now i ∷ judges m ∷ []) }
{
    image::node_type(image, i) == 2 && judges(m)
}

// Whether a rule applied.
pub fn applies(m: Move) -> bool
    ensures { result ≡ not (stays m) }
{
    !matches!(m, Move::Stay)
}
