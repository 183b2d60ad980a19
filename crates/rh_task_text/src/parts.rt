//! The names, numbers and lists that some values are.

ghost use Rattle.std.specs.Prelude.{◌≡◌, IfOk};
ghost use Rattle.rh_words.specs.declared.value.Place.TheVariants.{NamePlace, NumberPlace};
ghost use Rattle.rh_words.specs.Values.{IsAt};
ghost use Rattle.rh_task_text.specs.ValueColumns.{names_in, numbers_in, columns_in, values_in};

use rh_words::{Name, NameList, OutOfMemory, Value, Words};
use std::alloc::Global;

/// The name that the value is.
pub fn name_of(value: &Value) -> Name
    requires { IsAt NamePlace value.now }
    ensures { value.now ≡ Value.AName result }
{
    let Value::AName(name) = value else {
        unreachable!();
    };
    *name
}

/// The number that the value is.
pub fn number_of(value: &Value) -> u64
    requires { IsAt NumberPlace value.now }
    ensures { value.now ≡ Value.ANumber result }
{
    let Value::ANumber(number) = value else {
        unreachable!();
    };
    *number
}

/// The names among these.
pub fn names_in(alloc: Global, values: &[Value]) -> Result<NameList, OutOfMemory>
    ensures { IfOk result (λ found. found ≡ names_in values.now) }
{
    let mut found = NameList::with_capacity(alloc, values.len())?;
    let mut left = values;
    while let Some((value, rest)) = left.split_first() {
        if let Value::AName(name) = value {
            found.push(*name)?;
        }
        left = rest;
    }
    Ok(found)
}

/// The numbers among these.
pub fn numbers_in(alloc: Global, values: &[Value]) -> Result<Words, OutOfMemory>
    ensures { IfOk result (λ found. found ≡ numbers_in values.now) }
{
    let mut found = Vec::with_capacity(alloc, values.len())?;
    let mut left = values;
    while let Some((value, rest)) = left.split_first() {
        if let Value::ANumber(number) = value {
            found.push(*number)?;
        }
        left = rest;
    }
    Ok(Words::from_vec(found))
}

/// The first numbers of the pairs among these.
pub fn columns_in(alloc: Global, values: &[Value]) -> Result<Words, OutOfMemory>
    ensures { IfOk result (λ found. found ≡ columns_in values.now) }
{
    let mut found = Vec::with_capacity(alloc, values.len())?;
    let mut left = values;
    while let Some((value, rest)) = left.split_first() {
        if let Value::APair(column, _) = value {
            found.push(*column)?;
        }
        left = rest;
    }
    Ok(Words::from_vec(found))
}

/// The second numbers of the pairs among these.
pub fn values_in(alloc: Global, values: &[Value]) -> Result<Words, OutOfMemory>
    ensures { IfOk result (λ found. found ≡ values_in values.now) }
{
    let mut found = Vec::with_capacity(alloc, values.len())?;
    let mut left = values;
    while let Some((value, rest)) = left.split_first() {
        if let Value::APair(_, number) = value {
            found.push(*number)?;
        }
        left = rest;
    }
    Ok(Words::from_vec(found))
}
