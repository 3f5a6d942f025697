// The library that a host in C links: each entry function of `samblokur` under its name in C, with the same clauses. Numbers and lent memory: the C interface.
#![tactic(auto)]

ghost use Rattle.samblokur.specs.Permits.{CheckLeaves, FreshLeaves, RunLeaves, EventLeaves};

use plexil::{Card, Counts, State};
use samblokur::Report;

// Checks a plan image.
#[unsafe(no_mangle)]
pub extern "C" fn samblokur_check(image: &[u8], counts: &mut Counts, report: &mut Report) -> u32
    ensures { CheckLeaves image.now result counts.new report.new }
{
    samblokur::samblokur_check(image, counts, report)
}

// Sets state and card to the plan's fresh start.
#[unsafe(no_mangle)]
pub extern "C" fn samblokur_fresh(
    image: &[u8],
    state: &mut State,
    card: &mut Card,
    report: &mut Report,
) -> u32
    ensures { FreshLeaves image.now state.old card.old result state.new card.new report.new }
{
    samblokur::samblokur_fresh(image, state, card, report)
}

// Runs to quiet under a step budget and writes the command words into list from place start on.
#[unsafe(no_mangle)]
pub extern "C" fn samblokur_run(
    image: &[u8],
    state: &mut State,
    card: &mut Card,
    budget: u16,
    list: &mut [u32],
    start: usize,
    report: &mut Report,
) -> u32
    ensures { RunLeaves image.now state.old card.old budget list.old start result state.new card.new report.new list.new }
{
    samblokur::samblokur_run(image, state, card, budget, list, start, report)
}

// One call per report: the event enters, and the run begins.
#[unsafe(no_mangle)]
pub extern "C" fn samblokur_turn(
    image: &[u8],
    state: &mut State,
    card: &mut Card,
    event: &[u8],
    budget: u16,
    list: &mut [u32],
    start: usize,
    report: &mut Report,
) -> u32
    ensures { EventLeaves image.now state.old card.old event.now budget list.old start result state.new card.new report.new list.new }
{
    samblokur::samblokur_turn(image, state, card, event, budget, list, start, report)
}
