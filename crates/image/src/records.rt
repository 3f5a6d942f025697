// Whole records: every field but the spares, which are 0 in an admitted plan.
ghost use Rattle.std.specs.Prelude.{◌≡◌};
ghost use Rattle.image.specs.Records.{node_record, expr_record, var_record, look_record};

use super::exprs::{constant, operand_a, operand_b, operator, result_kind};
use super::looks::look_kind;
use super::nodes::{condition_field, node_type, parent, priority, value_field, what};
use super::vars::{initial_bits, owner, var_kind, var_known};
use plexil::Condition;

// form: the node's type, 0 list, 1 command, 2 assignment.
#[derive(Clone, Copy)]
pub struct NodeRecord {
    pub parent: u16,
    pub form: u8,
    pub priority: u16,
    pub skip: u16,
    pub start: u16,
    pub pre: u16,
    pub inv: u16,
    pub end: u16,
    pub post: u16,
    pub repeat: u16,
    pub what: u16,
    pub value: u16,
}

#[derive(Clone, Copy)]
pub struct ExprRecord {
    pub operator: u8,
    pub kind: u8,
    pub a: u16,
    pub b: u16,
    pub constant: u64,
}

#[derive(Clone, Copy)]
pub struct VarRecord {
    pub kind: u8,
    pub known: u8,
    pub owner: u16,
    pub initial: u64,
}

#[derive(Clone, Copy)]
pub struct LookRecord {
    pub kind: u8,
}

pub fn node_record(image: &[u8], i: u16) -> NodeRecord
    ensures { result ≡ node_record image.now i }
{
    NodeRecord {
        parent: parent(image, i),
        form: node_type(image, i),
        priority: priority(image, i),
        skip: condition_field(image, i, Condition::Skip),
        start: condition_field(image, i, Condition::Start),
        pre: condition_field(image, i, Condition::Pre),
        inv: condition_field(image, i, Condition::Inv),
        end: condition_field(image, i, Condition::End),
        post: condition_field(image, i, Condition::Post),
        repeat: condition_field(image, i, Condition::Repeat),
        what: what(image, i),
        value: value_field(image, i),
    }
}

pub fn expr_record(image: &[u8], e: u16) -> ExprRecord
    ensures { result ≡ expr_record image.now e }
{
    ExprRecord {
        operator: operator(image, e),
        kind: result_kind(image, e),
        a: operand_a(image, e),
        b: operand_b(image, e),
        constant: constant(image, e),
    }
}

pub fn var_record(image: &[u8], v: u16) -> VarRecord
    ensures { result ≡ var_record image.now v }
{
    VarRecord {
        kind: var_kind(image, v),
        known: var_known(image, v),
        owner: owner(image, v),
        initial: initial_bits(image, v),
    }
}

pub fn look_record(image: &[u8], l: u16) -> LookRecord
    ensures { result ≡ look_record image.now l }
{
    LookRecord {
        kind: look_kind(image, l),
    }
}
