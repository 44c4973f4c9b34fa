use crate::node::Node;
use sml_static::{Class, Label};
use tl_text::{List, Place};

/// What is settled after a whole declaration is typed: an overloaded occurrence, by the node of its type, or a
/// record pattern with `...`, by the node of the record and the fields that are written.
#[derive(Drop)]
pub enum Late {
    Over(Node, Class, Place),
    Flex(Node, List<(Label, Node)>, Place),
}
