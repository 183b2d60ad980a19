//! The matrices while a text is planned.

ghost use Rattle.std.specs.Prelude.{◌≡◌, ◌<◌, ◌≤◌, ◌++◌, OnOk, IfSome, Some, None, cond, length, option_to_list};
ghost use Rattle.std.specs.List.{AllByRecursion};
ghost use Rattle.rh_words.specs.declared.limits.TheConstants.{MAX_MATRICES, MAX_MATRIX_SIDE, MAX_CELL_VALUE};
ghost use Rattle.rh_sparse.specs.Matrix.{IsRow};
ghost use Rattle.rh_rules.specs.Facets.{cells_of};
ghost use Rattle.rh_rules.specs.Tables.{matrix_at};
ghost use Rattle.rh_rules.specs.Above.{matrix_used, shape_used, with_row};
ghost use Rattle.rh_tables.specs.Making.{names_no_matrix};

use rh_check::Matrices;
use rh_rules::{NamedShape, Shape, matrix_named};
use rh_sparse::{Cell, Matrix};
use rh_task_text::Statement;
use rh_words::{Name, OutOfMemory};
use std::alloc::Global;

/// The matrix that a statement names: its number and its shape, or 0 and no rows where it names none.
#[derive(Clone, Copy)]
pub struct Named {
    pub number: u32,
    pub shape: Shape,
}

/// The matrix that the statement names. It is `None` where no matrix has the name.
pub fn find_matrix(matrices: &[NamedShape], statement: &Statement) -> Option<Named>
    requires { length matrices.now ≤ MAX_MATRICES }
    ensures { result ≡ cond (names_no_matrix matrices.now statement.now) None (Some (record { number = matrix_used matrices.now statement.now; shape = shape_used matrices.now statement.now })) }
{
    match matrix_named(statement) {
        None => Some(Named {
            number: 0,
            shape: Shape { rows: 0, cols: 0 },
        }),
        Some(name) => {
            let place = place_in(matrices, &name)?;
            Some(Named {
                number: place as u32,
                shape: matrices[place].shape,
            })
        }
    }
}

/// The place of the matrix of this name.
fn place_in(matrices: &[NamedShape], name: &Name) -> Option<usize>
    ensures place { result ≡ matrix_at name.now matrices.now }
    ensures within { IfSome result (λ i. i < length matrices.now) }
{
    matrices
        .iter()
        .position(|matrix| matrix.name.bytes() == name.bytes())
}

/// Adds the cells of these columns and values, pair by pair.
fn list_cells(columns: &[u64], values: &[u64], cells: &mut Vec<Cell>) -> Result<(), OutOfMemory>
    requires pairs { length columns.now ≡ length values.now }
    requires columns { AllByRecursion (λ j. j < MAX_MATRIX_SIDE) columns.now }
    requires values { AllByRecursion (λ v. v ≤ MAX_CELL_VALUE) values.now }
    ensures { OnOk result (cells.new.items ≡ cells.old.items ++ cells_of columns.now values.now) }
{
    for at in 0..columns.len() {
        cells.push(Cell {
            col: columns[at] as u32,
            value: values[at] as u32,
        })?;
    }
    Ok(())
}

/// Adds a row of these columns and values to the matrix.
pub fn add_row(
    cells: &mut Vec<Cell>,
    matrix: &mut Matrix,
    columns: &[u64],
    values: &[u64],
) -> Result<(), OutOfMemory>
    requires pairs { length columns.now ≡ length values.now }
    requires columns { AllByRecursion (λ j. j < MAX_MATRIX_SIDE) columns.now }
    requires values { AllByRecursion (λ v. v ≤ MAX_CELL_VALUE) values.now }
    requires row { IsRow matrix.old.cols (cells_of columns.now values.now) }
    requires room { length matrix.old.rows < MAX_MATRIX_SIDE }
    ensures { OnOk result (matrix.new ≡ with_row (Some (cells_of columns.now values.now)) matrix.old) }
{
    cells.clear();
    list_cells(columns, values, cells)?;
    matrix.push_row(cells)?;
    Ok(())
}

/// Adds the matrix that is begun, where there is one, to those that are closed.
pub fn close_matrix(
    alloc: Global,
    closed: &mut Matrices,
    begun: Option<Matrix>,
) -> Result<(), OutOfMemory>
    ensures { OnOk result (closed.new ≡ closed.old ++ option_to_list begun) }
{
    match begun {
        Some(matrix) => closed.push(alloc, matrix),
        None => Ok(()),
    }
}
