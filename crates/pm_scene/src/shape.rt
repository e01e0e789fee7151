//! The shape of a file: each object has the members of its table, each of its type.

mod basis;
mod document;
mod nodes;
mod phases;
mod states;

pub(crate) use document::{Shape, read_shape};
pub(crate) use nodes::NamedNode;
