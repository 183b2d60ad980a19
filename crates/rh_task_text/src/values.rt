//! What a statement says, word by word.

ghost use Rattle.std.specs.Prelude.{◌≡◌, ◌≢◌, ◌⊎◌, ◌++◌, ◌∷◌, [], IfOk, OnOk, List, map};
ghost use Rattle.rh_words.specs.declared.value.Value.{Value};
ghost use Rattle.rh_words.specs.declared.value.Value.TheVariants.{AWord, AName, ANumber};
ghost use Rattle.rh_words.specs.declared.keyword.Keyword.TheVariants.{RowWord, LetWord, LitWord, CheckWord, LinearWord};
ghost use Rattle.rh_task_text.specs.declared.form.FormKind.TheVariants.{Stencil1Form, Stencil2Form};
ghost use Rattle.rh_task_text.specs.Forms.{form};
ghost use Rattle.rh_task_text.specs.Statements.{kind_of, said, awaits_said, pairs_said, terms_said, scheme_said};

use crate::statement::{SchemeText, Statement};
use Keyword::{
    AbftWord, AddWord, AwaitWord, CheckWord, Conserve2Word, ConserveWord, CountWord, CutWord,
    DropWord, EndWord, FinishWord, GenWord, GroupWord, JoinWord, LetWord, LinearWord, LitWord,
    MatrixWord, MulWord, PlainWord, ProductWord, PromiseWord, PutWord, RangeWord, ReplayWord,
    ReplicateWord, RowWord, ScaleWord, ShiftWord, Stencil1Word, Stencil2Word, SubWord, SumWord,
    TaskWord, TempWord, TotalWord, UserWord, WhenWord,
};
use Value::{AName, ANumber, APair, AWord};
use rh_words::{Keyword, Name, NameList, OutOfMemory, Value};
use std::alloc::Global;

/// What the statement says.
#[tactic(auto, using(crate::proofs::TaskForms::tasks_repeat))]
pub fn values_of(alloc: Global, statement: &Statement) -> Result<Vec<Value>, OutOfMemory>
    ensures { IfOk result (λ values. values.items ≡ said statement.now) }
{
    match statement {
        Statement::Promise { name, len, temp } => promise_values(alloc, name, *len, *temp),
        Statement::Matrix { name, rows, cols } => matrix_values(alloc, name, *rows, *cols),
        Statement::Finish { name } => named_values(alloc, FinishWord, name),
        Statement::End => listed(alloc, &[AWord(EndWord)]),
        Statement::Put {
            promise,
            local,
            when,
        } => put_values(alloc, promise, local, when),
        Statement::DropAwait { promise } => named_values(alloc, DropWord, promise),
        Statement::Row { .. }
        | Statement::Task { .. }
        | Statement::Group { .. }
        | Statement::LetLit { .. }
        | Statement::LetJoin { .. }
        | Statement::CheckLinear { .. } => list_values(alloc, statement),
        Statement::LetGen { .. }
        | Statement::LetAdd { .. }
        | Statement::LetSub { .. }
        | Statement::LetMul { .. }
        | Statement::LetScale { .. }
        | Statement::LetShift { .. }
        | Statement::LetCut { .. }
        | Statement::LetSum { .. }
        | Statement::LetCount { .. }
        | Statement::LetStencil1 { .. }
        | Statement::LetStencil2 { .. }
        | Statement::LetProduct { .. } => let_values(alloc, statement),
        Statement::CheckRange { .. }
        | Statement::CheckTotal { .. }
        | Statement::CheckConserve { .. }
        | Statement::CheckConserve2 { .. }
        | Statement::CheckProduct { .. }
        | Statement::CheckUser { .. } => check_values(alloc, statement),
    }
}

/// What a statement says that has a list.
fn list_values(alloc: Global, statement: &Statement) -> Result<Vec<Value>, OutOfMemory>
    requires { (form (kind_of statement.now)).again ≢ [] }
    ensures { IfOk result (λ values. values.items ≡ said statement.now) }
{
    match statement {
        Statement::Row { columns, values } => row_values(
            alloc,
            columns.as_slice(),
            values.as_slice(),
        ),
        Statement::Task {
            name,
            scheme,
            awaits,
        } => task_values(alloc, name, *scheme, awaits),
        Statement::Group { name, awaits } => group_values(alloc, name, awaits),
        Statement::LetLit { x, words } => let_lit_values(alloc, x, words.as_slice()),
        Statement::LetJoin { x, parts } => let_join_values(alloc, x, parts),
        Statement::CheckLinear {
            promise,
            base,
            inputs,
            factors,
        } => check_linear_values(alloc, promise, *base, inputs, factors.as_slice()),
        _ => unreachable!(),
    }
}

/// What a `let` says that has no list.
#[tactic(auto, using(crate::proofs::TaskForms::tasks_begin))]
fn let_values(alloc: Global, statement: &Statement) -> Result<Vec<Value>, OutOfMemory>
    requires { (form (kind_of statement.now)).first ≡ LetWord × (form (kind_of statement.now)).again ≡ [] }
    ensures { IfOk result (λ values. values.items ≡ said statement.now) }
{
    match statement {
        Statement::LetGen { x, n, start, limit } => let_gen_values(alloc, x, *n, *start, *limit),
        Statement::LetAdd { x, a, b } => let_two_values(alloc, x, AddWord, a, b),
        Statement::LetSub { x, a, b } => let_two_values(alloc, x, SubWord, a, b),
        Statement::LetMul { x, a, b } => let_two_values(alloc, x, MulWord, a, b),
        Statement::LetScale { x, a, k } => let_number_values(alloc, x, ScaleWord, a, *k),
        Statement::LetShift { x, a, s } => let_number_values(alloc, x, ShiftWord, a, *s),
        Statement::LetCut { x, a, from, len } => let_cut_values(alloc, x, a, *from, *len),
        Statement::LetSum { x, a } => let_one_values(alloc, x, SumWord, a),
        Statement::LetCount { x, a } => let_one_values(alloc, x, CountWord, a),
        Statement::LetStencil1 { .. } | Statement::LetStencil2 { .. } => let_stencil_values(
            alloc, statement,
        ),
        Statement::LetProduct { x, a, v } => let_two_values(alloc, x, ProductWord, a, v),
        _ => unreachable!(),
    }
}

/// What a `let` of a stencil says.
#[tactic(auto, using(crate::proofs::TaskForms::tasks_begin))]
fn let_stencil_values(alloc: Global, statement: &Statement) -> Result<Vec<Value>, OutOfMemory>
    requires { kind_of statement.now ≡ Stencil1Form ⊎ kind_of statement.now ≡ Stencil2Form }
    ensures { IfOk result (λ values. values.items ≡ said statement.now) }
{
    match statement {
        Statement::LetStencil1 { x, l, m, r, k, s } => stencil1_values(
            alloc,
            LetWord,
            AName(*x),
            AWord(Stencil1Word),
            l,
            m,
            r,
            *k,
            *s,
        ),
        Statement::LetStencil2 {
            x,
            north,
            south,
            west,
            east,
            m,
            cols,
            k,
            s,
        } => stencil2_values(
            alloc,
            LetWord,
            AName(*x),
            AWord(Stencil2Word),
            north,
            south,
            west,
            east,
            m,
            *cols,
            *k,
            *s,
        ),
        _ => unreachable!(),
    }
}

/// What a check says that has no list.
#[tactic(auto, using(crate::proofs::TaskForms::tasks_begin))]
fn check_values(alloc: Global, statement: &Statement) -> Result<Vec<Value>, OutOfMemory>
    requires { (form (kind_of statement.now)).first ≡ CheckWord × (form (kind_of statement.now)).again ≡ [] }
    ensures { IfOk result (λ values. values.items ≡ said statement.now) }
{
    match statement {
        Statement::CheckRange { promise, lo, hi } => check_range_values(alloc, promise, *lo, *hi),
        Statement::CheckTotal { promise, sum } => check_total_values(alloc, promise, *sum),
        Statement::CheckConserve {
            promise,
            l,
            m,
            r,
            k,
            s,
        } => stencil1_values(
            alloc,
            CheckWord,
            AWord(ConserveWord),
            AName(*promise),
            l,
            m,
            r,
            *k,
            *s,
        ),
        Statement::CheckConserve2 {
            promise,
            north,
            south,
            west,
            east,
            m,
            cols,
            k,
            s,
        } => stencil2_values(
            alloc,
            CheckWord,
            AWord(Conserve2Word),
            AName(*promise),
            north,
            south,
            west,
            east,
            m,
            *cols,
            *k,
            *s,
        ),
        Statement::CheckProduct { promise, a, q } => check_product_values(alloc, promise, a, q),
        Statement::CheckUser { promise, check } => check_user_values(alloc, promise, check),
        _ => unreachable!(),
    }
}

/// A list of these values.
fn listed(alloc: Global, values: &[Value]) -> Result<Vec<Value>, OutOfMemory>
    ensures { IfOk result (λ list. list.items ≡ values.now) }
{
    let list = Vec::from_slice(alloc, values)?;
    Ok(list)
}

fn matrix_values(
    alloc: Global,
    name: &Name,
    rows: u64,
    cols: u64,
) -> Result<Vec<Value>, OutOfMemory>
    ensures { IfOk result (λ values. values.items ≡ said (Statement.Matrix name.now rows cols)) }
{
    listed(
        alloc,
        &[
            AWord(MatrixWord),
            AName(*name),
            ANumber(rows),
            ANumber(cols),
        ],
    )
}

fn named_values(alloc: Global, word: Keyword, name: &Name) -> Result<Vec<Value>, OutOfMemory>
    ensures { IfOk result (λ values. values.items ≡ AWord word ∷ AName name.now ∷ []) }
{
    listed(alloc, &[AWord(word), AName(*name)])
}

fn let_gen_values(
    alloc: Global,
    x: &Name,
    n: u64,
    start: u64,
    limit: u64,
) -> Result<Vec<Value>, OutOfMemory>
    ensures { IfOk result (λ values. values.items ≡ said (Statement.LetGen x.now n start limit)) }
{
    listed(
        alloc,
        &[
            AWord(LetWord),
            AName(*x),
            AWord(GenWord),
            ANumber(n),
            ANumber(start),
            ANumber(limit),
        ],
    )
}

fn let_one_values(
    alloc: Global,
    x: &Name,
    kernel: Keyword,
    a: &Name,
) -> Result<Vec<Value>, OutOfMemory>
    ensures { IfOk result (λ values. values.items ≡ AWord LetWord ∷ AName x.now ∷ AWord kernel ∷ AName a.now ∷ []) }
{
    listed(
        alloc,
        &[AWord(LetWord), AName(*x), AWord(kernel), AName(*a)],
    )
}

fn let_two_values(
    alloc: Global,
    x: &Name,
    kernel: Keyword,
    a: &Name,
    b: &Name,
) -> Result<Vec<Value>, OutOfMemory>
    ensures { IfOk result (λ values. values.items ≡ AWord LetWord ∷ AName x.now ∷ AWord kernel ∷ AName a.now ∷ AName b.now ∷ []) }
{
    listed(
        alloc,
        &[
            AWord(LetWord),
            AName(*x),
            AWord(kernel),
            AName(*a),
            AName(*b),
        ],
    )
}

fn let_number_values(
    alloc: Global,
    x: &Name,
    kernel: Keyword,
    a: &Name,
    number: u64,
) -> Result<Vec<Value>, OutOfMemory>
    ensures { IfOk result (λ values. values.items ≡ AWord LetWord ∷ AName x.now ∷ AWord kernel ∷ AName a.now ∷ ANumber number ∷ []) }
{
    listed(
        alloc,
        &[
            AWord(LetWord),
            AName(*x),
            AWord(kernel),
            AName(*a),
            ANumber(number),
        ],
    )
}

fn let_cut_values(
    alloc: Global,
    x: &Name,
    a: &Name,
    from: u64,
    len: u64,
) -> Result<Vec<Value>, OutOfMemory>
    ensures { IfOk result (λ values. values.items ≡ said (Statement.LetCut x.now a.now from len)) }
{
    listed(
        alloc,
        &[
            AWord(LetWord),
            AName(*x),
            AWord(CutWord),
            AName(*a),
            ANumber(from),
            ANumber(len),
        ],
    )
}

fn check_range_values(
    alloc: Global,
    promise: &Name,
    lo: u64,
    hi: u64,
) -> Result<Vec<Value>, OutOfMemory>
    ensures { IfOk result (λ values. values.items ≡ said (Statement.CheckRange promise.now lo hi)) }
{
    listed(
        alloc,
        &[
            AWord(CheckWord),
            AWord(RangeWord),
            AName(*promise),
            ANumber(lo),
            ANumber(hi),
        ],
    )
}

fn check_total_values(alloc: Global, promise: &Name, sum: u64) -> Result<Vec<Value>, OutOfMemory>
    ensures { IfOk result (λ values. values.items ≡ said (Statement.CheckTotal promise.now sum)) }
{
    listed(
        alloc,
        &[
            AWord(CheckWord),
            AWord(TotalWord),
            AName(*promise),
            ANumber(sum),
        ],
    )
}

fn check_product_values(
    alloc: Global,
    promise: &Name,
    a: &Name,
    q: &Name,
) -> Result<Vec<Value>, OutOfMemory>
    ensures { IfOk result (λ values. values.items ≡ said (Statement.CheckProduct promise.now a.now q.now)) }
{
    listed(
        alloc,
        &[
            AWord(CheckWord),
            AWord(ProductWord),
            AName(*promise),
            AName(*a),
            AName(*q),
        ],
    )
}

fn check_user_values(alloc: Global, promise: &Name, check: &Name) -> Result<Vec<Value>, OutOfMemory>
    ensures { IfOk result (λ values. values.items ≡ said (Statement.CheckUser promise.now check.now)) }
{
    listed(
        alloc,
        &[
            AWord(CheckWord),
            AWord(UserWord),
            AName(*promise),
            AName(*check),
        ],
    )
}

/// A line of one dimension: a kernel or its check.
fn stencil1_values(
    alloc: Global,
    first: Keyword,
    second: Value,
    third: Value,
    l: &Name,
    m: &Name,
    r: &Name,
    k: u64,
    s: u64,
) -> Result<Vec<Value>, OutOfMemory>
    ensures { IfOk result (λ values. values.items ≡ AWord first ∷ second ∷ third ∷ AName l.now ∷ AName m.now ∷ AName r.now ∷ ANumber k ∷ ANumber s ∷ []) }
{
    listed(
        alloc,
        &[
            AWord(first),
            second,
            third,
            AName(*l),
            AName(*m),
            AName(*r),
            ANumber(k),
            ANumber(s),
        ],
    )
}

/// A line of two dimensions: a kernel or its check.
fn stencil2_values(
    alloc: Global,
    first: Keyword,
    second: Value,
    third: Value,
    north: &Name,
    south: &Name,
    west: &Name,
    east: &Name,
    m: &Name,
    cols: u64,
    k: u64,
    s: u64,
) -> Result<Vec<Value>, OutOfMemory>
    ensures { IfOk result (λ values. values.items ≡ AWord first ∷ second ∷ third ∷ AName north.now ∷ AName south.now ∷ AName west.now ∷ AName east.now ∷ AName m.now ∷ ANumber cols ∷ ANumber k ∷ ANumber s ∷ []) }
{
    listed(
        alloc,
        &[
            AWord(first),
            second,
            third,
            AName(*north),
            AName(*south),
            AName(*west),
            AName(*east),
            AName(*m),
            ANumber(cols),
            ANumber(k),
            ANumber(s),
        ],
    )
}

fn promise_values(
    alloc: Global,
    name: &Name,
    len: u64,
    temp: bool,
) -> Result<Vec<Value>, OutOfMemory>
    ensures { IfOk result (λ values. values.items ≡ said (Statement.Promise name.now len temp)) }
{
    let mut values = vec![in alloc; AWord(PromiseWord), AName(*name), ANumber(len)]?;
    if temp {
        values.push(AWord(TempWord))?;
    }
    Ok(values)
}

fn row_values(alloc: Global, columns: &[u64], numbers: &[u64]) -> Result<Vec<Value>, OutOfMemory>
    ensures { IfOk result (λ values. values.items ≡ AWord RowWord ∷ pairs_said columns.now numbers.now) }
{
    let mut values = vec![in alloc; AWord(RowWord)]?;
    let mut lefts = columns;
    let mut rights = numbers;
    while let (Some((left, more)), Some((right, others))) = (
        lefts.split_first(),
        rights.split_first(),
    ) {
        values.push(APair(*left, *right))?;
        lefts = more;
        rights = others;
    }
    Ok(values)
}

fn task_values(
    alloc: Global,
    name: &Name,
    scheme: SchemeText,
    awaits: &NameList,
) -> Result<Vec<Value>, OutOfMemory>
    ensures { IfOk result (λ values. values.items ≡ said (Statement.Task name.now scheme awaits.now)) }
{
    let mut values = vec![in alloc; AWord(TaskWord), AName(*name)]?;
    push_scheme(&mut values, scheme)?;
    push_awaits(&mut values, awaits)?;
    Ok(values)
}

fn group_values(alloc: Global, name: &Name, awaits: &NameList) -> Result<Vec<Value>, OutOfMemory>
    ensures { IfOk result (λ values. values.items ≡ said (Statement.Group name.now awaits.now)) }
{
    let mut values = vec![in alloc; AWord(GroupWord), AName(*name)]?;
    push_awaits(&mut values, awaits)?;
    Ok(values)
}

fn let_lit_values(alloc: Global, x: &Name, words: &[u64]) -> Result<Vec<Value>, OutOfMemory>
    ensures { IfOk result (λ values. values.items ≡ AWord LetWord ∷ AName x.now ∷ AWord LitWord ∷ map ANumber words.now) }
{
    let mut values = vec![in alloc; AWord(LetWord), AName(*x), AWord(LitWord)]?;
    let mut left = words;
    while let Some((word, rest)) = left.split_first() {
        values.push(ANumber(*word))?;
        left = rest;
    }
    Ok(values)
}

fn let_join_values(alloc: Global, x: &Name, parts: &NameList) -> Result<Vec<Value>, OutOfMemory>
    ensures { IfOk result (λ values. values.items ≡ said (Statement.LetJoin x.now parts.now)) }
{
    let mut values = vec![in alloc; AWord(LetWord), AName(*x), AWord(JoinWord)]?;
    push_names(&mut values, parts.as_slice())?;
    Ok(values)
}

fn put_values(
    alloc: Global,
    promise: &Name,
    local: &Name,
    when: &Option<Name>,
) -> Result<Vec<Value>, OutOfMemory>
    ensures { IfOk result (λ values. values.items ≡ said (Statement.Put promise.now local.now when.now)) }
{
    match when {
        None => listed(alloc, &[AWord(PutWord), AName(*promise), AName(*local)]),
        Some(when) => {
            listed(
                alloc,
                &[
                    AWord(PutWord),
                    AName(*promise),
                    AName(*local),
                    AWord(WhenWord),
                    AName(*when),
                ],
            )
        }
    }
}

fn check_linear_values(
    alloc: Global,
    promise: &Name,
    base: u64,
    inputs: &NameList,
    factors: &[u64],
) -> Result<Vec<Value>, OutOfMemory>
    ensures { IfOk result (λ values. values.items ≡ AWord CheckWord ∷ AWord LinearWord ∷ AName promise.now ∷ ANumber base ∷ terms_said inputs.now factors.now) }
{
    let mut values = vec![in alloc;
        AWord(CheckWord),
        AWord(LinearWord),
        AName(*promise),
        ANumber(base),
    ]?;
    let mut names = inputs.as_slice();
    let mut numbers = factors;
    while let (Some((name, more)), Some((number, others))) = (
        names.split_first(),
        numbers.split_first(),
    ) {
        values.push(AName(*name))?;
        values.push(ANumber(*number))?;
        names = more;
        numbers = others;
    }
    Ok(values)
}

fn push_scheme(values: &mut Vec<Value>, scheme: SchemeText) -> Result<(), OutOfMemory>
    ensures { OnOk result ((rest : List Value) → values.new.items ++ rest ≡ values.old.items ++ scheme_said scheme rest) }
{
    match scheme {
        SchemeText::Plain => values.push(AWord(PlainWord))?,
        SchemeText::Replicate => values.push(AWord(ReplicateWord))?,
        SchemeText::Replay { limit } => {
            values.push(AWord(ReplayWord))?;
            values.push(ANumber(limit))?;
        }
        SchemeText::Abft => values.push(AWord(AbftWord))?,
    }
    Ok(())
}

fn push_awaits(values: &mut Vec<Value>, awaits: &NameList) -> Result<(), OutOfMemory>
    ensures { OnOk result (values.new.items ≡ values.old.items ++ awaits_said awaits.now) }
{
    if awaits.len() > 0 {
        values.push(AWord(AwaitWord))?;
        push_names(values, awaits.as_slice())?;
    }
    Ok(())
}

fn push_names(values: &mut Vec<Value>, names: &[Name]) -> Result<(), OutOfMemory>
    ensures { OnOk result (values.new.items ≡ values.old.items ++ map AName names.now) }
{
    let mut left = names;
    while let Some((name, rest)) = left.split_first() {
        values.push(AName(*name))?;
        left = rest;
    }
    Ok(())
}
