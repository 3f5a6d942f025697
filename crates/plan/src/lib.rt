// "An opened plan is a view over the caller's image bytes and copies none of them."
#![tactic(auto)]

ghost use Rattle.plan.specs.Permits.{OpenPermits, NodePermits, ExpressionPermits, VariablePermits, LookupPermits};

use image::{ExprRecord, LookRecord, NodeRecord, VarRecord};
use plexil::{Counts, Verdict};

// The counts are those of the check: 0 where the image is refused.
#[derive(Clone, Copy)]
pub struct Plan<'a> {
    pub image: &'a [u8],
    pub counts: Counts,
}

#[derive(Clone, Copy)]
pub struct Opened<'a> {
    pub plan: Plan<'a>,
    pub verdict: Verdict,
}

// The view beside the check's verdict: a struct and no Result, since `OpenPermits` by the definition `opened_of` gives the view of a refused image too.
pub fn open<'a>(image: &'a [u8]) -> Opened<'a>
    ensures { OpenPermits image.entry result }
{
    let c = admit::check(image);
    Opened {
        plan: Plan {
            image,
            counts: c.counts,
        },
        verdict: c.verdict,
    }
}

// A record by its number. One that is not below the plan's count has none: in the view of a refused image no number has.
// Four functions, since each has a record type, a count and a definition of its own, `node_at_of` to `lookup_at_of`; what they share is `then`.
pub fn node<'a>(plan: Plan<'a>, i: u16) -> Option<NodeRecord>
    ensures { NodePermits plan.entry i result }
{
    (i < plan.counts.nodes).then(|| image::node_record(plan.image, i))
}

pub fn expression<'a>(plan: Plan<'a>, e: u16) -> Option<ExprRecord>
    ensures { ExpressionPermits plan.entry e result }
{
    (e < plan.counts.exprs).then(|| image::expr_record(plan.image, e))
}

pub fn variable<'a>(plan: Plan<'a>, v: u16) -> Option<VarRecord>
    ensures { VariablePermits plan.entry v result }
{
    (v < plan.counts.vars).then(|| image::var_record(plan.image, v))
}

pub fn lookup<'a>(plan: Plan<'a>, l: u16) -> Option<LookRecord>
    ensures { LookupPermits plan.entry l result }
{
    (l < plan.counts.looks).then(|| image::look_record(plan.image, l))
}
