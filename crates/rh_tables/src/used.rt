//! The locals that a line uses, looked up once.

ghost use Rattle.std.specs.Prelude.{◌≡◌, ◌≤◌, ◌+◌, IfOk, OnOk, Some, None, cond, length, map, true, false, not, slice_index};
ghost use Rattle.std.specs.List.{list_any};
ghost use Rattle.rh_words.specs.declared.limits.TheConstants.{MAX_AWAITS, MAX_LETS};
ghost use Rattle.rh_rules.specs.Rules.{is_among_first};
ghost use Rattle.rh_rules.specs.Tables.{number_of, lens_of};

use rh_rules::{Local, place_of};
use rh_words::{Name, OutOfMemory};

/// Writes the number of the local of each name, up to the first name that is none of so many first locals. Whether all are.
pub fn find_locals(
    count: usize,
    locals: &[Local],
    names: &[Name],
    numbers: &mut Vec<u32>,
) -> Result<bool, OutOfMemory>
    requires few { length locals.now ≤ MAX_AWAITS + MAX_LETS }
    ensures known { IfOk result (λ known. known ≡ not (list_any (λ q. not (is_among_first count locals.now q)) names.now)) }
    ensures numbers { IfOk result (λ known. known ≡ true → numbers.new.items ≡ map (number_of locals.now) names.now) }
{
    numbers.clear();
    for name in names {
        let Some(number) = number_among(count, locals, name) else {
            return Ok(false);
        };
        numbers.push(number)?;
    }
    Ok(true)
}

/// The number of the local of the name, where it is one of so many first locals.
fn number_among(count: usize, locals: &[Local], name: &Name) -> Option<u32>
    requires few { length locals.now ≤ MAX_AWAITS + MAX_LETS }
    ensures { result ≡ cond (is_among_first count locals.now name.now) (Some (number_of locals.now name.now)) None }
{
    match place_of(locals, name) {
        Some(place) if place < count => Some(place as u32),
        _ => None,
    }
}

/// Writes the length of the local of each number.
pub fn list_lens(locals: &[Local], numbers: &[u32], lens: &mut Vec<u32>) -> Result<(), OutOfMemory>
    ensures { OnOk result (lens.new.items ≡ map (λ i. slice_index (lens_of locals.now) i) numbers.now) }
{
    lens.clear();
    for number in numbers {
        lens.push(len_of(locals, *number))?;
    }
    Ok(())
}

/// How many words the local of this number has, or 0.
fn len_of(locals: &[Local], number: u32) -> u32
    ensures { result ≡ slice_index (lens_of locals.now) number }
{
    match locals.get(number as usize) {
        Some(local) => local.len(),
        None => 0,
    }
}
