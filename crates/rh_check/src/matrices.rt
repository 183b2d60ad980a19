//! The matrices whose products are checked.

ghost use Rattle.std.specs.Prelude.{◌≡◌, ◌<◌, ◌++◌, ◌∷◌, [], Some, IsSomeAnd, OnOk, OnErr, length, slice_get, unwrap_or};
ghost use Rattle.std.specs.Option.{option_map};
ghost use Rattle.rh_sparse.specs.Matrix.{IsMatrix};
ghost use Rattle.rh_sparse.specs.Checksums.{checksums_of};

use rh_sparse::{Checksums, Matrix};
use rh_words::OutOfMemory;
use std::alloc::Global;
use std::marker::Model;

/// A matrix with its two checksums.
#[derive(Drop)]
struct Summed {
    matrix: Matrix,
    sums: Checksums,
}

/// Matrices by their numbers, from 0, each with its two checksums, which are made once.
#[derive(Drop)]
pub struct Matrices {
    items: Vec<Summed>,
}

impl Model for Matrices {
    ghost use Rattle.std.specs.Prelude.{◌≡◌, List, map};
    ghost use Rattle.std.specs.List.{AllByRecursion};
    ghost use Rattle.rh_sparse.specs.Matrix.{MatrixData};
    ghost use Rattle.rh_sparse.specs.Checksums.{checksums_of};

    ghost Value = { List MatrixData };

    ghost view = { λ m. map (λ h. h.matrix) m.items.items };

    ghost invariant = { λ m. AllByRecursion (λ h. h.sums ≡ checksums_of h.matrix) m.items.items };
}

impl Matrices {
    /// No matrices. It takes no memory.
    pub fn new(alloc: Global) -> Matrices
        ensures { result ≡ [] }
    {
        Matrices {
            items: Vec::new(alloc),
        }
    }

    /// Adds a matrix at the end, and makes its checksums.
    pub fn push(&mut self, alloc: Global, a: Matrix) -> Result<(), OutOfMemory>
        ensures ok { OnOk result (self.new ≡ self.old ++ a ∷ []) }
        ensures err { OnErr result (self.new ≡ self.old) }
    {
        let sums = Checksums::of(alloc, &a)?;
        self.items.push(Summed { matrix: a, sums })?;
        Ok(())
    }

    /// How many rows the matrix of a number has, or 0 where there is none.
    pub fn rows_at(&self, at: u32) -> u32
        ensures { result ≡ unwrap_or (option_map (λ a. length a.rows) (slice_get self.now at)) 0 }
    {
        match self.items.as_slice().get(at as usize) {
            Some(held) => held.matrix.rows(),
            None => 0,
        }
    }

    /// The matrix of a number.
    pub fn get(&self, at: u32) -> &Matrix
        requires { at < length self.now }
        ensures { slice_get self.now at ≡ Some result.now }
    {
        &self.items[at as usize].matrix
    }

    /// The checksums of the matrix of a number, which is lawful.
    pub fn sums(&self, at: u32) -> &Checksums
        requires { at < length self.now }
        ensures { IsSomeAnd (slice_get self.now at) (λ a. (result.now ≡ checksums_of a) × IsMatrix a) }
    {
        let held = &self.items[at as usize];
        let _lawful = held.matrix.rows();
        &held.sums
    }
}
