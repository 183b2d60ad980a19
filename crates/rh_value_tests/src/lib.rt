//! Tests of kernels, stencils, sparse matrices and checks, by the public calls of rh_kernels, rh_stencil, rh_sparse and rh_check: each
//! crate has a module of its own, and the checks of a caller's own have one. Values worked by hand or by a program in another language.
#![tactic(auto)]

#[cfg(test)]
mod check;
#[cfg(test)]
mod kernels;
#[cfg(test)]
mod sparse;
#[cfg(test)]
mod stencil;
#[cfg(test)]
mod stored_checks;
