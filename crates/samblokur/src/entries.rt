// The entry functions, thin over the calls by value, with no branch: "The host lends its own turn card and each call advances that card itself".
// The C interface: state, card, list and start are what C gives, each by itself.
ghost use Rattle.samblokur.specs.Permits.{CheckLeaves, FreshLeaves, RunLeaves, EventLeaves};

use super::calls;
use super::reports::Report;
use plexil::{Card, Counts, State};

// Checks a plan image.
pub fn samblokur_check(image: &[u8], counts: &mut Counts, report: &mut Report) -> u32
    ensures { CheckLeaves image.now result counts.new report.new }
{
    let r = calls::check(image);
    *counts = r.counts;
    *report = r.report;
    r.number
}

// Sets state and card to the plan's fresh start.
pub fn samblokur_fresh(image: &[u8], state: &mut State, card: &mut Card, report: &mut Report) -> u32
    ensures { FreshLeaves image.now state.old card.old result state.new card.new report.new }
{
    let r = calls::fresh(image, *state, *card);
    *state = r.state;
    *card = r.card;
    *report = r.report;
    r.number
}

// Runs to quiet under a step budget and writes the command words into list from place start on.
pub fn samblokur_run(
    image: &[u8],
    state: &mut State,
    card: &mut Card,
    budget: u16,
    list: &mut [u32],
    start: usize,
    report: &mut Report,
) -> u32
    ensures { RunLeaves image.now state.old card.old budget list.old start result state.new card.new report.new list.new }
{
    let r = calls::run(image, *state, *card, budget, list, start);
    *state = r.state;
    *card = r.card;
    *report = r.report;
    r.number
}

// One call per report: the event enters, and the run begins.
pub fn samblokur_turn(
    image: &[u8],
    state: &mut State,
    card: &mut Card,
    event: &[u8],
    budget: u16,
    list: &mut [u32],
    start: usize,
    report: &mut Report,
) -> u32
    ensures { EventLeaves image.now state.old card.old event.now budget list.old start result state.new card.new report.new list.new }
{
    let r = calls::turn(image, *state, *card, event, budget, list, start);
    *state = r.state;
    *card = r.card;
    *report = r.report;
    r.number
}
