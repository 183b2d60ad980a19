//! The table's types: its rows, where statements stand, and the blocks that they open.

/// Where a statement stands: right in a task, right in a matrix, outside of both, or anywhere.
#[derive(Clone, Copy)]
pub enum Standing {
    Outside,
    InMatrix,
    InTask,
    Anywhere,
}

/// An open block.
#[derive(Clone, Copy)]
pub enum Block {
    TaskBlock,
    MatrixBlock { rows: u64, cols: u64 },
    ScopeBlock,
}

/// How a statement changes which blocks are open.
#[derive(Clone, Copy)]
pub enum Change {
    Opens(Block),
    Closes,
    Stays,
}

/// A row of the table of forms.
#[derive(Clone, Copy)]
pub enum FormKind {
    PromiseForm,
    MatrixForm,
    RowForm,
    PlainForm,
    ReplicateForm,
    ReplayForm,
    AbftForm,
    FinishForm,
    GroupForm,
    EndForm,
    LitForm,
    GenForm,
    AddForm,
    SubForm,
    MulForm,
    ScaleForm,
    ShiftForm,
    CutForm,
    JoinForm,
    SumForm,
    CountForm,
    Stencil1Form,
    Stencil2Form,
    ProductForm,
    PutForm,
    DropForm,
    RangeForm,
    TotalForm,
    LinearForm,
    ConserveForm,
    Conserve2Form,
    ProductCheckForm,
    UserForm,
}
