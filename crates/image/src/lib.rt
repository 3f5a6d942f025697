// The plan image of document 01: little-endian numbers, and the records that are made of them. Every reader is total on any bytes, as its definition is.
// So a field is a number, and no `Option` or enum: which numbers are good is the check's question, in `records` and `admit`.
// Each field has a reader of its own, one line, since the definitions name each.
#![tactic(auto, unfolding(plexil::specs::Bytes::opened, plexil::specs::Image::opened, crate::specs::Records::opened))]

mod bytes;
mod exprs;
mod looks;
mod nodes;
mod records;
mod sections;
mod vars;

pub use bytes::{byte_at, le16, le32, le64};
pub use exprs::{constant, expr_spare, operand_a, operand_b, operator, result_kind};
pub use looks::{look_kind, look_spare};
pub use nodes::{
    condition_at, condition_field, node_spare, node_type, parent, priority, value_field, what,
};
pub use records::{
    ExprRecord, LookRecord, NodeRecord, VarRecord, expr_record, look_record, node_record,
    var_record,
};
pub use sections::{
    edition, end_at, expr_count, exprs_at, header, look_count, looks_at, node_count, var_count,
    vars_at,
};
pub use vars::{initial_bits, owner, var_kind, var_known, var_spare};
