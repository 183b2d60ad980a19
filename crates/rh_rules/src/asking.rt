//! What the forms of checks read and ask. Each call is one table over the forms.

ghost use Rattle.std.specs.Prelude.{◌≡◌, ◌≤◌, ◌++◌, length, slice_index, OnOk, true};
ghost use Rattle.rh_words.specs.declared.limits.TheConstants.{MAX_TERMS};
ghost use Rattle.rh_rules.specs.Facets.{facets, sixteen_terms};
ghost use Rattle.rh_rules.specs.Limits.{IsWithinLimits};
ghost use Rattle.rh_rules.specs.Rules.{asks_product};

use crate::facets::are_sides;
use crate::shape::Shape;
use rh_check::{Spec, Term};
use rh_task_text::Statement;
use rh_words::{Name, OutOfMemory};

/// Adds the names of the awaits that the check reads.
#[tactic(auto, unfolding(crate::specs::Facets::facets))]
pub fn list_inputs(statement: &Statement, names: &mut Vec<Name>) -> Result<(), OutOfMemory>
    ensures { OnOk result (names.new.items ≡ names.old.items ++ (facets statement.now).inputs) }
{
    match statement {
        Statement::CheckLinear { inputs, .. } => Ok(names.extend_from_slice(inputs.as_slice())?),
        Statement::CheckConserve { l, m, r, .. } => Ok(names.extend_from_slice(&[*l, *m, *r])?),
        Statement::CheckConserve2 {
            north,
            south,
            west,
            east,
            m,
            ..
        } => Ok(names.extend_from_slice(&[*north, *south, *west, *east, *m])?),
        Statement::CheckProduct { q, .. } => Ok(names.push(*q)?),
        _ => Ok(()),
    }
}

/// The name of the handed-in check that the check asks.
#[tactic(auto, unfolding(crate::specs::Facets::facets))]
pub fn asked(statement: &Statement) -> Option<Name>
    ensures { result ≡ (facets statement.now).asked }
{
    match statement {
        Statement::CheckUser { check, .. } => Some(*check),
        _ => None,
    }
}

/// Whether the line is a check of a product.
#[tactic(auto, unfolding(crate::specs::Facets::facets))]
pub fn asks_product(statement: &Statement) -> bool
    ensures { result ≡ asks_product statement.now }
{
    match statement {
        Statement::CheckProduct { .. } => true,
        _ => false,
    }
}

/// Whether the promise of this length and the awaits of these fit the check, which names a matrix of this shape, where it
/// names one.
#[tactic(auto, unfolding(crate::specs::Facets::facets))]
pub fn suits(statement: &Statement, shape: Shape, len: u32, lens: &[u32]) -> bool
    requires { length lens.now ≡ length (facets statement.now).inputs }
    ensures { result ≡ (facets statement.now).suits shape len lens.now }
{
    match statement {
        Statement::CheckProduct { .. } => len == shape.rows && lens[0] == shape.cols,
        Statement::CheckConserve { .. } => len == lens[1],
        Statement::CheckConserve2 { cols, .. } => len == lens[4] && are_sides(*cols, lens),
        _ => true,
    }
}

/// What the check asks, by the place of the handed-in check and the number of the matrix that it names, and by the numbers of
/// the awaits that it reads. The lengths are those of the promise and of the awaits.
#[tactic(auto, unfolding(crate::specs::Facets::facets))]
pub fn spec_of(
    statement: &Statement,
    at: u32,
    matrix: u32,
    inputs: &[u32],
    shape: Shape,
    len: u32,
    lens: &[u32],
) -> Spec
    requires read { length inputs.now ≡ length (facets statement.now).inputs }
    requires lens { length lens.now ≡ length (facets statement.now).inputs }
    requires within { IsWithinLimits statement.now }
    requires fitting { (facets statement.now).suits shape len lens.now ≡ true }
    ensures { result ≡ (facets statement.now).spec at matrix inputs.now }
{
    match statement {
        Statement::CheckRange { lo, hi, .. } => Spec::Range { lo: *lo, hi: *hi },
        Statement::CheckTotal { sum, .. } => Spec::Total { sum: *sum },
        Statement::CheckLinear { base, factors, .. } => Spec::Linear {
            base: *base,
            terms: sixteen_terms(inputs, factors.as_slice()),
            count: inputs.len() as u8,
        },
        Statement::CheckUser { .. } => Spec::User { at },
        Statement::CheckProduct { .. } => Spec::Product {
            matrix,
            x: inputs[0],
        },
        Statement::CheckConserve { k, s, .. } => Spec::Conserve {
            l: inputs[0],
            m: inputs[1],
            r: inputs[2],
            k: *k,
            s: *s as u32,
        },
        Statement::CheckConserve2 { cols, k, s, .. } => {
            grid_spec(inputs, *cols as u32, *k, *s as u32)
        }
        _ => Spec::Total { sum: 0 },
    }
}

fn grid_spec(inputs: &[u32], cols: u32, k: u64, s: u32) -> Spec
    requires { length inputs.now ≡ 5 }
    ensures { result ≡ Spec.Conserve2 (slice_index inputs.now 0) (slice_index inputs.now 1) (slice_index inputs.now 2) (slice_index inputs.now 3) (slice_index inputs.now 4) cols k s }
{
    Spec::Conserve2 {
        north: inputs[0],
        south: inputs[1],
        west: inputs[2],
        east: inputs[3],
        m: inputs[4],
        cols,
        k,
        s,
    }
}

/// The terms of these pairs, and behind them terms of factor 0.
fn sixteen_terms(inputs: &[u32], factors: &[u64]) -> [Term; 16]
    requires pairs { length inputs.now ≡ length factors.now }
    requires few { length inputs.now ≤ MAX_TERMS }
    ensures { result ≡ sixteen_terms inputs.now factors.now }
{
    let mut terms = [Term {
        input: 0,
        factor: 0,
    }; 16];
    for at in 0..inputs.len() {
        terms[at] = Term {
            input: inputs[at],
            factor: factors[at],
        };
    }
    terms
}
