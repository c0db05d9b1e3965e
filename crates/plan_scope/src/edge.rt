//! Evaluates build lines into edges: their paths and their variables.

pub(crate) mod addition;
pub(crate) mod build_line;
pub(crate) mod compiled;
pub(crate) mod edge_list;
pub(crate) mod expansion;
pub(crate) mod extending;
pub(crate) mod paths;
pub(crate) mod text_list;
pub(crate) mod variables;
