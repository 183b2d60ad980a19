//! What checks ask.

/// A term of a linear check: the place of an awaited promise in the await list, from 0, and the factor of the sum of its words.
#[derive(Clone, Copy, PartialEq, Eq)]
pub struct Term {
    pub input: u32,
    pub factor: u64,
}

/// What a check asks of the words that are put. The inputs of a check (`input`, `l`, `m`, `r`, the four sides, `x`) are places in
/// the await list, and `at` is a place among the handed-in checks, all from 0. Sums are modulo 2^64.
#[derive(Clone, Copy)]
pub enum Spec {
    /// Each word is at least `lo` and at most `hi`.
    Range {
        lo: u64,
        hi: u64,
    },
    /// The words sum to `sum`.
    Total {
        sum: u64,
    },
    /// The words sum to `base` and, for each of the first `count` terms, its factor times the sum of its input.
    Linear {
        base: u64,
        terms: [Term; 16],
        count: u8,
    },
    /// The words sum to those of `m` and the flux over its two ends.
    Conserve {
        l: u32,
        m: u32,
        r: u32,
        k: u64,
        s: u32,
    },
    /// The words sum to those of `m`, rows of `cols` words each, and the flux over its four sides.
    Conserve2 {
        north: u32,
        south: u32,
        west: u32,
        east: u32,
        m: u32,
        cols: u32,
        k: u64,
        s: u32,
    },
    /// The words agree with both checksums of the product of a matrix and `x`.
    Product {
        matrix: u32,
        x: u32,
    },
    /// The handed-in check at this place accepts the words.
    User {
        at: u32,
    },
}

/// What a handed-in check asks.
#[derive(Clone, Copy, PartialEq, Eq)]
pub enum UserSpec {
    /// Each word is at least `lo` and at most `hi`.
    Range { lo: u64, hi: u64 },
    /// The words sum to `sum`, modulo 2^64.
    Total { sum: u64 },
}
