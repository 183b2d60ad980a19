//! The statement that some values are.

ghost use Rattle.std.specs.Prelude.{◌≡◌, ◌≢◌, [], OnOk};
ghost use Rattle.rh_words.specs.declared.keyword.Keyword.TheVariants.{LetWord, CheckWord};
ghost use Rattle.rh_task_text.specs.Forms.{form};
ghost use Rattle.rh_task_text.specs.Statements.{FitForm, States};
ghost use Rattle.rh_task_text.specs.ValueColumns.{names_in, numbers_in, columns_in, values_in};

use crate::form::FormKind;
use crate::parts::{columns_in, name_of, names_in, number_of, numbers_in, values_in};
use crate::statement::{SchemeText, Statement};
use rh_words::{OutOfMemory, Value};
use std::alloc::Global;

/// Makes the statement of these values in this place: a statement is large, and is written where it stays.
pub fn put_statement_of(
    alloc: Global,
    kind: FormKind,
    values: &[Value],
    place: &mut Statement,
) -> Result<(), OutOfMemory>
    requires { FitForm (form kind) values.now }
    ensures { OnOk result (States kind values.now place.new) }
{
    match kind {
        FormKind::RowForm => row_statement(alloc, values, place),
        FormKind::PlainForm => plain_statement(alloc, values, place),
        FormKind::ReplicateForm => replicate_statement(alloc, values, place),
        FormKind::ReplayForm => replay_statement(alloc, values, place),
        FormKind::AbftForm => abft_statement(alloc, values, place),
        FormKind::GroupForm => group_statement(alloc, values, place),
        FormKind::LitForm => lit_statement(alloc, values, place),
        FormKind::JoinForm => join_statement(alloc, values, place),
        FormKind::LinearForm => linear_statement(alloc, values, place),
        FormKind::PromiseForm
        | FormKind::MatrixForm
        | FormKind::FinishForm
        | FormKind::EndForm
        | FormKind::PutForm
        | FormKind::DropForm => {
            put_other(kind, values, place);
            Ok(())
        }
        FormKind::AddForm
        | FormKind::SubForm
        | FormKind::MulForm
        | FormKind::ScaleForm
        | FormKind::ShiftForm
        | FormKind::ProductForm
        | FormKind::GenForm
        | FormKind::CutForm
        | FormKind::SumForm
        | FormKind::CountForm
        | FormKind::Stencil1Form
        | FormKind::Stencil2Form => {
            put_let(kind, values, place);
            Ok(())
        }
        FormKind::RangeForm
        | FormKind::TotalForm
        | FormKind::ConserveForm
        | FormKind::Conserve2Form
        | FormKind::ProductCheckForm
        | FormKind::UserForm => {
            put_check(kind, values, place);
            Ok(())
        }
    }
}

/// Makes the statement of these values, which is no `let` and no check, and has no list.
fn put_other(kind: FormKind, values: &[Value], place: &mut Statement)
    requires first { (form kind).first ≢ LetWord × (form kind).first ≢ CheckWord }
    requires again { (form kind).again ≡ [] }
    requires values { FitForm (form kind) values.now }
    ensures { States kind values.now place.new }
{
    match kind {
        FormKind::PromiseForm => promise_statement(values, place),
        FormKind::MatrixForm => matrix_statement(values, place),
        FormKind::FinishForm => finish_statement(values, place),
        FormKind::EndForm => end_statement(values, place),
        FormKind::PutForm => put_statement(values, place),
        FormKind::DropForm => drop_statement(values, place),
        _ => unreachable!(),
    }
}

/// Makes the `let` of these values, of a kernel that has no list.
fn put_let(kind: FormKind, values: &[Value], place: &mut Statement)
    requires kind { (form kind).first ≡ LetWord × (form kind).again ≡ [] }
    requires values { FitForm (form kind) values.now }
    ensures { States kind values.now place.new }
{
    match kind {
        FormKind::AddForm => add_statement(values, place),
        FormKind::SubForm => sub_statement(values, place),
        FormKind::MulForm => mul_statement(values, place),
        FormKind::ScaleForm => scale_statement(values, place),
        FormKind::ShiftForm => shift_statement(values, place),
        FormKind::ProductForm => product_statement(values, place),
        FormKind::GenForm => gen_statement(values, place),
        FormKind::CutForm => cut_statement(values, place),
        FormKind::SumForm => sum_statement(values, place),
        FormKind::CountForm => count_statement(values, place),
        FormKind::Stencil1Form => stencil1_statement(values, place),
        FormKind::Stencil2Form => stencil2_statement(values, place),
        _ => unreachable!(),
    }
}

/// Makes the check of these values, which has no list.
fn put_check(kind: FormKind, values: &[Value], place: &mut Statement)
    requires kind { (form kind).first ≡ CheckWord × (form kind).again ≡ [] }
    requires values { FitForm (form kind) values.now }
    ensures { States kind values.now place.new }
{
    match kind {
        FormKind::RangeForm => range_statement(values, place),
        FormKind::TotalForm => total_statement(values, place),
        FormKind::ConserveForm => conserve_statement(values, place),
        FormKind::Conserve2Form => conserve2_statement(values, place),
        FormKind::ProductCheckForm => product_check_statement(values, place),
        FormKind::UserForm => user_statement(values, place),
        _ => unreachable!(),
    }
}

/// Puts the statement into the place of another.
#[inline(always)]
fn set(place: &mut Statement, statement: Statement)
    ensures { place.new ≡ statement }
{
    *place = statement;
}

#[inline(never)]
fn promise_statement(values: &[Value], place: &mut Statement)
    requires { FitForm (form FormKind.PromiseForm) values.now }
    ensures { States FormKind.PromiseForm values.now place.new }
{
    let [_, name, len, temp @ ..] = values else {
        unreachable!();
    };
    set(
        place,
        Statement::Promise {
            name: name_of(name),
            len: number_of(len),
            temp: !temp.is_empty(),
        },
    );
}

#[inline(never)]
fn matrix_statement(values: &[Value], place: &mut Statement)
    requires { FitForm (form FormKind.MatrixForm) values.now }
    ensures { States FormKind.MatrixForm values.now place.new }
{
    let [_, name, rows, cols] = values else {
        unreachable!();
    };
    set(
        place,
        Statement::Matrix {
            name: name_of(name),
            rows: number_of(rows),
            cols: number_of(cols),
        },
    );
}

#[inline(never)]
fn finish_statement(values: &[Value], place: &mut Statement)
    requires { FitForm (form FormKind.FinishForm) values.now }
    ensures { States FormKind.FinishForm values.now place.new }
{
    let [_, name] = values else {
        unreachable!();
    };
    set(
        place,
        Statement::Finish {
            name: name_of(name),
        },
    );
}

fn end_statement(values: &[Value], place: &mut Statement)
    requires { FitForm (form FormKind.EndForm) values.now }
    ensures { States FormKind.EndForm values.now place.new }
{
    let [_] = values else {
        unreachable!();
    };
    set(place, Statement::End);
}

#[inline(never)]
fn drop_statement(values: &[Value], place: &mut Statement)
    requires { FitForm (form FormKind.DropForm) values.now }
    ensures { States FormKind.DropForm values.now place.new }
{
    let [_, promise] = values else {
        unreachable!();
    };
    set(
        place,
        Statement::DropAwait {
            promise: name_of(promise),
        },
    );
}

#[inline(never)]
fn add_statement(values: &[Value], place: &mut Statement)
    requires { FitForm (form FormKind.AddForm) values.now }
    ensures { States FormKind.AddForm values.now place.new }
{
    let [_, x, _, a, b] = values else {
        unreachable!();
    };
    set(
        place,
        Statement::LetAdd {
            x: name_of(x),
            a: name_of(a),
            b: name_of(b),
        },
    );
}

#[inline(never)]
fn sub_statement(values: &[Value], place: &mut Statement)
    requires { FitForm (form FormKind.SubForm) values.now }
    ensures { States FormKind.SubForm values.now place.new }
{
    let [_, x, _, a, b] = values else {
        unreachable!();
    };
    set(
        place,
        Statement::LetSub {
            x: name_of(x),
            a: name_of(a),
            b: name_of(b),
        },
    );
}

#[inline(never)]
fn mul_statement(values: &[Value], place: &mut Statement)
    requires { FitForm (form FormKind.MulForm) values.now }
    ensures { States FormKind.MulForm values.now place.new }
{
    let [_, x, _, a, b] = values else {
        unreachable!();
    };
    set(
        place,
        Statement::LetMul {
            x: name_of(x),
            a: name_of(a),
            b: name_of(b),
        },
    );
}

#[inline(never)]
fn scale_statement(values: &[Value], place: &mut Statement)
    requires { FitForm (form FormKind.ScaleForm) values.now }
    ensures { States FormKind.ScaleForm values.now place.new }
{
    let [_, x, _, a, k] = values else {
        unreachable!();
    };
    set(
        place,
        Statement::LetScale {
            x: name_of(x),
            a: name_of(a),
            k: number_of(k),
        },
    );
}

#[inline(never)]
fn shift_statement(values: &[Value], place: &mut Statement)
    requires { FitForm (form FormKind.ShiftForm) values.now }
    ensures { States FormKind.ShiftForm values.now place.new }
{
    let [_, x, _, a, s] = values else {
        unreachable!();
    };
    set(
        place,
        Statement::LetShift {
            x: name_of(x),
            a: name_of(a),
            s: number_of(s),
        },
    );
}

#[inline(never)]
fn product_statement(values: &[Value], place: &mut Statement)
    requires { FitForm (form FormKind.ProductForm) values.now }
    ensures { States FormKind.ProductForm values.now place.new }
{
    let [_, x, _, a, v] = values else {
        unreachable!();
    };
    set(
        place,
        Statement::LetProduct {
            x: name_of(x),
            a: name_of(a),
            v: name_of(v),
        },
    );
}

#[inline(never)]
fn gen_statement(values: &[Value], place: &mut Statement)
    requires { FitForm (form FormKind.GenForm) values.now }
    ensures { States FormKind.GenForm values.now place.new }
{
    let [_, x, _, n, start, limit] = values else {
        unreachable!();
    };
    set(
        place,
        Statement::LetGen {
            x: name_of(x),
            n: number_of(n),
            start: number_of(start),
            limit: number_of(limit),
        },
    );
}

#[inline(never)]
fn cut_statement(values: &[Value], place: &mut Statement)
    requires { FitForm (form FormKind.CutForm) values.now }
    ensures { States FormKind.CutForm values.now place.new }
{
    let [_, x, _, a, from, len] = values else {
        unreachable!();
    };
    set(
        place,
        Statement::LetCut {
            x: name_of(x),
            a: name_of(a),
            from: number_of(from),
            len: number_of(len),
        },
    );
}

#[inline(never)]
fn sum_statement(values: &[Value], place: &mut Statement)
    requires { FitForm (form FormKind.SumForm) values.now }
    ensures { States FormKind.SumForm values.now place.new }
{
    let [_, x, _, a] = values else {
        unreachable!();
    };
    set(
        place,
        Statement::LetSum {
            x: name_of(x),
            a: name_of(a),
        },
    );
}

#[inline(never)]
fn count_statement(values: &[Value], place: &mut Statement)
    requires { FitForm (form FormKind.CountForm) values.now }
    ensures { States FormKind.CountForm values.now place.new }
{
    let [_, x, _, a] = values else {
        unreachable!();
    };
    set(
        place,
        Statement::LetCount {
            x: name_of(x),
            a: name_of(a),
        },
    );
}

#[inline(never)]
fn stencil1_statement(values: &[Value], place: &mut Statement)
    requires { FitForm (form FormKind.Stencil1Form) values.now }
    ensures { States FormKind.Stencil1Form values.now place.new }
{
    let [_, x, _, l, m, r, k, s] = values else {
        unreachable!();
    };
    set(
        place,
        Statement::LetStencil1 {
            x: name_of(x),
            l: name_of(l),
            m: name_of(m),
            r: name_of(r),
            k: number_of(k),
            s: number_of(s),
        },
    );
}

#[inline(never)]
fn range_statement(values: &[Value], place: &mut Statement)
    requires { FitForm (form FormKind.RangeForm) values.now }
    ensures { States FormKind.RangeForm values.now place.new }
{
    let [_, _, promise, lo, hi] = values else {
        unreachable!();
    };
    set(
        place,
        Statement::CheckRange {
            promise: name_of(promise),
            lo: number_of(lo),
            hi: number_of(hi),
        },
    );
}

#[inline(never)]
fn total_statement(values: &[Value], place: &mut Statement)
    requires { FitForm (form FormKind.TotalForm) values.now }
    ensures { States FormKind.TotalForm values.now place.new }
{
    let [_, _, promise, sum] = values else {
        unreachable!();
    };
    set(
        place,
        Statement::CheckTotal {
            promise: name_of(promise),
            sum: number_of(sum),
        },
    );
}

#[inline(never)]
fn conserve_statement(values: &[Value], place: &mut Statement)
    requires { FitForm (form FormKind.ConserveForm) values.now }
    ensures { States FormKind.ConserveForm values.now place.new }
{
    let [_, _, promise, l, m, r, k, s] = values else {
        unreachable!();
    };
    set(
        place,
        Statement::CheckConserve {
            promise: name_of(promise),
            l: name_of(l),
            m: name_of(m),
            r: name_of(r),
            k: number_of(k),
            s: number_of(s),
        },
    );
}

#[inline(never)]
fn product_check_statement(values: &[Value], place: &mut Statement)
    requires { FitForm (form FormKind.ProductCheckForm) values.now }
    ensures { States FormKind.ProductCheckForm values.now place.new }
{
    let [_, _, promise, a, q] = values else {
        unreachable!();
    };
    set(
        place,
        Statement::CheckProduct {
            promise: name_of(promise),
            a: name_of(a),
            q: name_of(q),
        },
    );
}

#[inline(never)]
fn user_statement(values: &[Value], place: &mut Statement)
    requires { FitForm (form FormKind.UserForm) values.now }
    ensures { States FormKind.UserForm values.now place.new }
{
    let [_, _, promise, check] = values else {
        unreachable!();
    };
    set(
        place,
        Statement::CheckUser {
            promise: name_of(promise),
            check: name_of(check),
        },
    );
}

#[inline(never)]
fn put_statement(values: &[Value], place: &mut Statement)
    requires { FitForm (form FormKind.PutForm) values.now }
    ensures { States FormKind.PutForm values.now place.new }
{
    match values {
        [_, promise, local] => set(
            place,
            Statement::Put {
                promise: name_of(promise),
                local: name_of(local),
                when: None,
            },
        ),
        [_, promise, local, _, when] => set(
            place,
            Statement::Put {
                promise: name_of(promise),
                local: name_of(local),
                when: Some(name_of(when)),
            },
        ),
        _ => unreachable!(),
    }
}

#[inline(never)]
fn row_statement(alloc: Global, values: &[Value], place: &mut Statement) -> Result<(), OutOfMemory>
    requires { FitForm (form FormKind.RowForm) values.now }
    ensures { OnOk result (States FormKind.RowForm values.now place.new) }
{
    let [_, items @ ..] = values else {
        unreachable!();
    };
    set(
        place,
        Statement::Row {
            columns: columns_in(alloc, items)?,
            values: values_in(alloc, items)?,
        },
    );
    Ok(())
}

#[inline(never)]
fn plain_statement(
    alloc: Global,
    values: &[Value],
    place: &mut Statement,
) -> Result<(), OutOfMemory>
    requires { FitForm (form FormKind.PlainForm) values.now }
    ensures { OnOk result (States FormKind.PlainForm values.now place.new) }
{
    let [_, name, _, awaits @ ..] = values else {
        unreachable!();
    };
    set(
        place,
        Statement::Task {
            name: name_of(name),
            scheme: SchemeText::Plain,
            awaits: names_in(alloc, awaits)?,
        },
    );
    Ok(())
}

#[inline(never)]
fn replicate_statement(
    alloc: Global,
    values: &[Value],
    place: &mut Statement,
) -> Result<(), OutOfMemory>
    requires { FitForm (form FormKind.ReplicateForm) values.now }
    ensures { OnOk result (States FormKind.ReplicateForm values.now place.new) }
{
    let [_, name, _, awaits @ ..] = values else {
        unreachable!();
    };
    set(
        place,
        Statement::Task {
            name: name_of(name),
            scheme: SchemeText::Replicate,
            awaits: names_in(alloc, awaits)?,
        },
    );
    Ok(())
}

#[inline(never)]
fn replay_statement(
    alloc: Global,
    values: &[Value],
    place: &mut Statement,
) -> Result<(), OutOfMemory>
    requires { FitForm (form FormKind.ReplayForm) values.now }
    ensures { OnOk result (States FormKind.ReplayForm values.now place.new) }
{
    let [_, name, _, limit, awaits @ ..] = values else {
        unreachable!();
    };
    set(
        place,
        Statement::Task {
            name: name_of(name),
            scheme: SchemeText::Replay {
                limit: number_of(limit),
            },
            awaits: names_in(alloc, awaits)?,
        },
    );
    Ok(())
}

#[inline(never)]
fn abft_statement(alloc: Global, values: &[Value], place: &mut Statement) -> Result<(), OutOfMemory>
    requires { FitForm (form FormKind.AbftForm) values.now }
    ensures { OnOk result (States FormKind.AbftForm values.now place.new) }
{
    let [_, name, _, awaits @ ..] = values else {
        unreachable!();
    };
    set(
        place,
        Statement::Task {
            name: name_of(name),
            scheme: SchemeText::Abft,
            awaits: names_in(alloc, awaits)?,
        },
    );
    Ok(())
}

#[inline(never)]
fn group_statement(
    alloc: Global,
    values: &[Value],
    place: &mut Statement,
) -> Result<(), OutOfMemory>
    requires { FitForm (form FormKind.GroupForm) values.now }
    ensures { OnOk result (States FormKind.GroupForm values.now place.new) }
{
    let [_, name, awaits @ ..] = values else {
        unreachable!();
    };
    set(
        place,
        Statement::Group {
            name: name_of(name),
            awaits: names_in(alloc, awaits)?,
        },
    );
    Ok(())
}

#[inline(never)]
fn lit_statement(alloc: Global, values: &[Value], place: &mut Statement) -> Result<(), OutOfMemory>
    requires { FitForm (form FormKind.LitForm) values.now }
    ensures { OnOk result (States FormKind.LitForm values.now place.new) }
{
    let [_, x, _, words @ ..] = values else {
        unreachable!();
    };
    set(
        place,
        Statement::LetLit {
            x: name_of(x),
            words: numbers_in(alloc, words)?,
        },
    );
    Ok(())
}

#[inline(never)]
fn join_statement(alloc: Global, values: &[Value], place: &mut Statement) -> Result<(), OutOfMemory>
    requires { FitForm (form FormKind.JoinForm) values.now }
    ensures { OnOk result (States FormKind.JoinForm values.now place.new) }
{
    let [_, x, _, parts @ ..] = values else {
        unreachable!();
    };
    set(
        place,
        Statement::LetJoin {
            x: name_of(x),
            parts: names_in(alloc, parts)?,
        },
    );
    Ok(())
}

#[inline(never)]
fn stencil2_statement(values: &[Value], place: &mut Statement)
    requires { FitForm (form FormKind.Stencil2Form) values.now }
    ensures { States FormKind.Stencil2Form values.now place.new }
{
    let [_, x, _, north, south, west, east, m, cols, k, s] = values else {
        unreachable!();
    };
    set(
        place,
        Statement::LetStencil2 {
            x: name_of(x),
            north: name_of(north),
            south: name_of(south),
            west: name_of(west),
            east: name_of(east),
            m: name_of(m),
            cols: number_of(cols),
            k: number_of(k),
            s: number_of(s),
        },
    );
}

#[inline(never)]
fn linear_statement(
    alloc: Global,
    values: &[Value],
    place: &mut Statement,
) -> Result<(), OutOfMemory>
    requires { FitForm (form FormKind.LinearForm) values.now }
    ensures { OnOk result (States FormKind.LinearForm values.now place.new) }
{
    let [_, _, promise, base, terms @ ..] = values else {
        unreachable!();
    };
    set(
        place,
        Statement::CheckLinear {
            promise: name_of(promise),
            base: number_of(base),
            inputs: names_in(alloc, terms)?,
            factors: numbers_in(alloc, terms)?,
        },
    );
    Ok(())
}

#[inline(never)]
fn conserve2_statement(values: &[Value], place: &mut Statement)
    requires { FitForm (form FormKind.Conserve2Form) values.now }
    ensures { States FormKind.Conserve2Form values.now place.new }
{
    let [_, _, promise, north, south, west, east, m, cols, k, s] = values else {
        unreachable!();
    };
    set(
        place,
        Statement::CheckConserve2 {
            promise: name_of(promise),
            north: name_of(north),
            south: name_of(south),
            west: name_of(west),
            east: name_of(east),
            m: name_of(m),
            cols: number_of(cols),
            k: number_of(k),
            s: number_of(s),
        },
    );
}
