//! The sizes of matrices.

use rh_words::Name;

/// How many rows and columns a matrix has.
#[derive(Clone, Copy)]
pub struct Shape {
    pub rows: u32,
    pub cols: u32,
}

/// A matrix by its line: its name, and how many rows and columns it has.
#[derive(Clone, Copy)]
pub struct NamedShape {
    pub name: Name,
    pub shape: Shape,
}
