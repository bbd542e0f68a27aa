// Giving up what a run owns, in functions that all crates above call: each destructor is met here alone.
use crate::frames::LineMaker;
use out_lines::LineWriter;
use pk_tree::Tree;

pub(crate) fn give_up_writer(_writer: LineWriter) {}

/// Gives a line maker up.
pub fn give_up_lines(_lines: LineMaker<'_>) {}

/// Gives a tree up.
pub fn give_up_tree(_tree: Tree) {}
