//! What the lines of a program text say.

use rh_words::{Name, NameList, Words};

/// How a task is made resilient.
#[derive(Clone, Copy)]
pub enum SchemeText {
    Plain,
    Replicate,
    Replay { limit: u64 },
    Abft,
}

/// What one line says.
#[derive(Drop)]
pub enum Statement {
    /// Declares a promise of `len` words.
    Promise {
        name: Name,
        len: u64,
        temp: bool,
    },
    /// Opens a matrix.
    Matrix {
        name: Name,
        rows: u64,
        cols: u64,
    },
    /// A row of the open matrix.
    Row {
        columns: Words,
        values: Words,
    },
    /// Opens a task that awaits promises.
    Task {
        name: Name,
        scheme: SchemeText,
        awaits: NameList,
    },
    /// Opens a scope.
    Finish {
        name: Name,
    },
    /// Opens a group that awaits promises.
    Group {
        name: Name,
        awaits: NameList,
    },
    /// Closes the innermost open block.
    End,
    LetLit {
        x: Name,
        words: Words,
    },
    LetGen {
        x: Name,
        n: u64,
        start: u64,
        limit: u64,
    },
    LetAdd {
        x: Name,
        a: Name,
        b: Name,
    },
    LetSub {
        x: Name,
        a: Name,
        b: Name,
    },
    LetMul {
        x: Name,
        a: Name,
        b: Name,
    },
    LetScale {
        x: Name,
        a: Name,
        k: u64,
    },
    LetShift {
        x: Name,
        a: Name,
        s: u64,
    },
    LetCut {
        x: Name,
        a: Name,
        from: u64,
        len: u64,
    },
    LetJoin {
        x: Name,
        parts: NameList,
    },
    LetSum {
        x: Name,
        a: Name,
    },
    LetCount {
        x: Name,
        a: Name,
    },
    LetStencil1 {
        x: Name,
        l: Name,
        m: Name,
        r: Name,
        k: u64,
        s: u64,
    },
    LetStencil2 {
        x: Name,
        north: Name,
        south: Name,
        west: Name,
        east: Name,
        m: Name,
        cols: u64,
        k: u64,
        s: u64,
    },
    LetProduct {
        x: Name,
        a: Name,
        v: Name,
    },
    /// Puts a local into a promise.
    Put {
        promise: Name,
        local: Name,
        when: Option<Name>,
    },
    /// Drops an await.
    DropAwait {
        promise: Name,
    },
    CheckRange {
        promise: Name,
        lo: u64,
        hi: u64,
    },
    CheckTotal {
        promise: Name,
        sum: u64,
    },
    CheckLinear {
        promise: Name,
        base: u64,
        inputs: NameList,
        factors: Words,
    },
    CheckConserve {
        promise: Name,
        l: Name,
        m: Name,
        r: Name,
        k: u64,
        s: u64,
    },
    CheckConserve2 {
        promise: Name,
        north: Name,
        south: Name,
        west: Name,
        east: Name,
        m: Name,
        cols: u64,
        k: u64,
        s: u64,
    },
    CheckProduct {
        promise: Name,
        a: Name,
        q: Name,
    },
    CheckUser {
        promise: Name,
        check: Name,
    },
}

/// A statement with the number of its line.
#[derive(Drop)]
pub struct Item {
    pub line: u32,
    pub statement: Statement,
}
