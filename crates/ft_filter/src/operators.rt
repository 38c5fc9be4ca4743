//! The operators of a filter's text.

ghost use Rattle.std.specs.Prelude.{◌≡◌, Some};
ghost use Rattle.std.specs.Option.{option_map};
ghost use Rattle.std.specs.List.{find};
ghost use Rattle.ft_filter.specs.Operators.{op_at, begins, all_ops};

use crate::tree::Op;

/// Every operator, the longer ones first.
const OPS: [Op; 8] = [
    Op::Eq,
    Op::Ne,
    Op::Le,
    Op::Ge,
    Op::Lt,
    Op::Gt,
    Op::Bits,
    Op::Glob,
];

/// The first operator, in the order of `OPS`, that the text begins with.
fn first_op(text: &[u8]) -> Option<Op>
    ensures { result ≡ find (begins text.now) all_ops }
{
    OPS.iter().copied().find(|op| text.starts_with(op.text()))
}

/// The longest operator that the text begins with, and what is after it. A `&` before another `&`
/// is no operator.
#[tactic(auto, unfolding(crate::specs::Operators::op_at))]
pub(crate) fn op_at(text: &[u8]) -> Option<(Op, &[u8])>
    ensures { option_map (λ x. (x.0, x.1.now)) result ≡ op_at text.now }
{
    if text.starts_with(b"&&") {
        return None;
    }
    match first_op(text) {
        Some(op) => Some((op, &text[op.text().len()..])),
        None => None,
    }
}
