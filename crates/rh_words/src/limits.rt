//! The limits of texts, plans and runs. Each is the greatest that is allowed.

/// Bytes of a program text.
pub const MAX_PROGRAM_BYTES: usize = 4194304;

/// Bytes of a fault text.
pub const MAX_FAULT_BYTES: usize = 1048576;

/// Bytes of a name.
pub const MAX_NAME_BYTES: usize = 32;

/// Nodes of a plan: tasks, groups and scopes.
pub const MAX_NODES: usize = 16384;

/// Promises of a plan, those of scopes among them.
pub const MAX_PROMISES: usize = 16384;

/// Words of a promise and of a local. The least is 1.
pub const MAX_PROMISE_WORDS: u64 = 4096;

/// Words over all promises, three for each scope among them.
pub const MAX_TOTAL_WORDS: u64 = 16777216;

/// Words over all promises that the report shows.
pub const MAX_SHOWN_WORDS: u64 = 1048576;

/// Promises that a task or a group awaits.
pub const MAX_AWAITS: usize = 16;

/// `let` lines of a task.
pub const MAX_LETS: usize = 32;

/// `check` lines of a task.
pub const MAX_CHECKS: usize = 16;

/// Attempts of a replayed task. The least is 1.
pub const MAX_REPLAYS: u64 = 8;

/// Parts of a `join`.
pub const MAX_PARTS: usize = 16;

/// Terms of a `linear` check.
pub const MAX_TERMS: usize = 16;

/// Bits by which a word is shifted.
pub const MAX_SHIFT: u64 = 63;

/// Open `finish` and `group` blocks, one in another.
pub const MAX_NESTING: usize = 8;

/// Matrices of a text.
pub const MAX_MATRICES: usize = 256;

/// Rows of a matrix, and its columns. The least is 1.
pub const MAX_MATRIX_SIDE: u64 = 4096;

/// Cells of a row that are written out.
pub const MAX_ROW_CELLS: usize = 2048;

/// The value of a cell.
pub const MAX_CELL_VALUE: u64 = 1048575;

/// Workers of a run. The least is 1.
pub const MAX_WORKERS: usize = 64;
