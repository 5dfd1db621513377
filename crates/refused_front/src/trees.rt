//! Calls of `lsl_tree` and `lsl_signs`.

ghost use Rattle.std.specs.Prelude.{◌≡◌};
ghost use Rattle.lsl_signs.specs.Limits.{height_limit, most_constructs, most_tokens};
ghost use Rattle.lsl_signs.specs.Operators.{operator_of};
ghost use Rattle.lsl_tree.specs.Nodes.{node_kind_of, node_of};

use lsl_lex::Sort;
use lsl_signs::{binary_op, grammar_limits};
use lsl_tree::Node;
use lsl_value::{BinaryOp, Kind};

/// `Node::kind`.
pub fn kind_of_node(node: &Node) -> Kind
    ensures { result ≡ node_kind_of (node_of node.now) }
{
    node.kind()
}

/// `grammar_limits`.
pub fn limits() -> (u32, u32, usize)
    ensures { result ≡ (most_constructs, height_limit, most_tokens) }
{
    grammar_limits()
}

/// `binary_op`.
pub fn operator(sign: &Sort) -> BinaryOp
    ensures { result ≡ operator_of sign.now }
{
    binary_op(sign)
}
