// "with 23 to 25 the lowest breaking entry is named"
ghost use Rattle.std.specs.Prelude.{◌≡◌, not};
ghost use Rattle.plexil.specs.declared.RunAnswer.TheVariants as ran;
ghost use Rattle.plexil.specs.Tested.{Accepted, tested_of};
ghost use Rattle.plexil.specs.Lists.{first};
ghost use Rattle.plexil.specs.Macro.{entry_count, good_entry, named_before, not_awaited, or_else};

use super::awaited::first_not_awaited;
use super::twice::first_twice;
use super::wrong::first_wrong;
use plexil::{RunAnswer, State};

pub(crate) fn entries_answer(image: &[u8], state: &State, event: &[u8]) -> Result<(), RunAnswer>
    ensures { tested_of result ≡ or_else ran.Entry (first (entry_count event.now) (λ k. not (good_entry image.now event.now k))) (or_else ran.Twice (first (entry_count event.now) (named_before event.now)) (or_else ran.NotAwaited (first (entry_count event.now) (not_awaited state.now event.now)) Accepted)) }
{
    if let Some(k) = first_wrong(image, event) {
        return Err(RunAnswer::Entry(k));
    }
    if let Some(k) = first_twice(event) {
        return Err(RunAnswer::Twice(k));
    }
    if let Some(k) = first_not_awaited(state, event) {
        return Err(RunAnswer::NotAwaited(k));
    }
    Ok(())
}
