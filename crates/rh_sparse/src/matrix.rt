//! Sparse matrices, row by row.

ghost use Rattle.std.specs.Prelude.{◌≡◌, ◌++◌, ◌∷◌, [], ◌<◌, ◌≤◌, ◌↔◌, IsTrue, OnOk, OnErr, Some, length, slice_get, slice_index};
ghost use Rattle.std.specs.List.{All};

use rh_words::OutOfMemory;
use rh_words::limits::{MAX_CELL_VALUE, MAX_MATRIX_SIDE, MAX_ROW_CELLS};
use std::alloc::Global;
use std::marker::Model;

/// An entry of a row that is written out: its column, counted from 0, and its value, which is at most 1,048,575.
#[derive(Clone, Copy)]
pub struct Cell {
    pub col: u32,
    pub value: u32,
}

/// A matrix of whole numbers with 1 to 4,096 columns and at most 4,096 rows. Each row is kept as its cells, in ascending order of
/// their columns; every other entry is 0.
#[derive(Drop)]
pub struct Matrix {
    cols: u32,
    /// The cells of all rows, one row after another.
    cells: Vec<Cell>,
    /// Where each row ends among the cells.
    ends: Vec<usize>,
}

impl Model for Matrix {
    ghost use Rattle.rh_sparse.specs.Matrix.{MatrixData, matrix_data};

    ghost Value = { MatrixData };

    ghost use Rattle.rh_sparse.specs.Layout.{rows_from, IsLaidOut};

    ghost view = { λ m. matrix_data m.cols (rows_from m.cells.items 0 m.ends.items) };

    ghost invariant = { λ m. IsLaidOut m.cols m.cells.items m.ends.items };
}

impl Matrix {
    ghost use Rattle.rh_sparse.specs.Matrix.{matrix_data, IsRow, IsMatrix};

    /// A matrix of this many columns, from 1 to 4,096, without rows.
    pub fn new(alloc: Global, cols: u32) -> Matrix
        requires some { 1 ≤ cols }
        requires few { cols ≤ MAX_MATRIX_SIDE }
        ensures { result ≡ matrix_data cols [] }
    {
        Matrix {
            cols,
            cells: Vec::new(alloc),
            ends: Vec::new(alloc),
        }
    }

    /// Puts a row below the others.
    pub fn push_row(&mut self, cells: &[Cell]) -> Result<(), OutOfMemory>
        requires lawful { IsRow self.old.cols cells.now }
        requires room { length self.old.rows < MAX_MATRIX_SIDE }
        ensures ok { OnOk result (self.new ≡ matrix_data self.old.cols (self.old.rows ++ cells.now ∷ [])) }
        ensures err { OnErr result (self.new ≡ self.old) }
    {
        let start = self.cells.len();
        self.cells.extend_from_slice(cells)?;
        match self.ends.push(start + cells.len()) {
            Ok(()) => Ok(()),
            Err(_) => {
                self.cells.truncate(start);
                Err(OutOfMemory)
            }
        }
    }

    /// How many rows there are. The matrix is lawful.
    pub fn rows(&self) -> u32
        ensures value { result ≡ length self.now.rows }
        ensures lawful { IsMatrix self.now }
    {
        self.ends.len() as u32
    }

    /// How many columns there are, from 1 to 4,096.
    pub fn cols(&self) -> u32
        ensures value { result ≡ self.now.cols }
        ensures lawful { IsMatrix self.now }
    {
        self.cols
    }

    /// The cells of a row, counted from 0: their columns ascend and are below the number of columns.
    pub fn row(&self, at: u32) -> &[Cell]
        requires { at < length self.now.rows }
        ensures value { slice_get self.now.rows at ≡ Some result.now }
        ensures lawful { IsRow self.now.cols result.now }
    {
        row_in(self.cells.as_slice(), self.ends.as_slice(), at as usize)
    }
}

ghost use Rattle.rh_sparse.specs.Matrix.{IsRow, IsCell, Ascends};
ghost use Rattle.rh_sparse.specs.Layout.{rows_from, LeadTo};

/// The cells of a row, among the cells of all rows, which have these ends.
#[tactic(auto, using(crate::proofs::Layouts::row_at))]
fn row_in<'a>(cells: &'a [Cell], ends: &[usize], at: usize) -> &'a [Cell]
    requires within { at < length ends.now }
    requires lead { LeadTo 0 ends.now (length cells.now) }
    ensures { slice_get (rows_from cells.now 0 ends.now) at ≡ Some result.now }
{
    let (start, end) = row_range(cells, ends, at);
    &cells[start..end]
}

/// Where a row begins and ends among the cells of all rows, which have these ends.
fn row_range(cells: &[Cell], ends: &[usize], at: usize) -> (usize, usize)
    requires within { at < length ends.now }
    requires lead { LeadTo 0 ends.now (length cells.now) }
    ensures start { result.0 ≡ slice_index (0 ∷ ends.now) at }
    ensures end { result.1 ≡ slice_index ends.now at }
    ensures rising { result.0 ≤ result.1 }
    ensures fits { result.1 ≤ length cells.now }
{
    let start = if at == 0 { 0 } else { ends[at - 1] };
    (start, ends[at])
}

/// Whether the cells may be a row of a matrix of this many columns: at most 2,048 cells, in ascending order of their columns, each
/// column below the number of columns and each value at most 1,048,575.
pub fn is_row(cols: u32, cells: &[Cell]) -> bool
    ensures { IsTrue result ↔ IsRow cols cells.now }
{
    cells.len() <= MAX_ROW_CELLS && are_cells(cols, cells) && ascends(cells)
}

/// Whether each cell has a column below the number of columns and a value within its limit.
fn are_cells(cols: u32, cells: &[Cell]) -> bool
    ensures { IsTrue result ↔ All (IsCell cols) cells.now }
{
    cells.iter().all(|cell| cell.col < cols && u64::from(cell.value) <= MAX_CELL_VALUE)
}

/// Whether each column is above the one before it.
fn ascends(cells: &[Cell]) -> bool
    ensures { IsTrue result ↔ Ascends cells.now }
{
    for at in 1..cells.len() {
        if cells[at].col <= cells[at - 1].col {
            return false;
        }
    }
    true
}
