//! The table of forms.

ghost use Rattle.std.specs.Prelude.{◌≡◌, ◌≤◌, ◌∷◌, [], length, take};
ghost use Rattle.rh_task_text.specs.Forms.{form, kinds, awaiting};
ghost use Rattle.rh_task_text.specs.FormRows.{IsForm, HasParts};

use crate::form::{FormKind, Standing};
use Keyword::{
    AbftWord, AddWord, AwaitWord, CheckWord, Conserve2Word, ConserveWord, CountWord, CutWord,
    DropWord, EndWord, FinishWord, GenWord, GroupWord, JoinWord, LetWord, LinearWord, LitWord,
    MatrixWord, MulWord, PlainWord, ProductWord, PromiseWord, PutWord, RangeWord, ReplayWord,
    ReplicateWord, RowWord, ScaleWord, ShiftWord, Stencil1Word, Stencil2Word, SubWord, SumWord,
    TaskWord, TempWord, TotalWord, UserWord, WhenWord,
};
use Place::{NamePlace, NumberPlace, PairPlace, WordPlace};
use rh_words::{Keyword, Place};

/// What a line of a form has: first the words that choose the form; then all places, what follows them where the line
/// does not end, and what follows that, any number of times.
#[derive(Clone, Copy)]
pub struct Form {
    pub standing: Standing,
    pub first: Keyword,
    pub choice: &'static [Place],
    pub places: &'static [Place],
    pub more: &'static [Place],
    pub again: &'static [Place],
}

/// The row of the table.
#[inline(always)]
pub fn form_of(kind: FormKind) -> Form
    ensures { IsForm result (form kind) }
{
    match kind {
        FormKind::PromiseForm => Form {
            standing: Standing::Outside,
            first: PromiseWord,
            choice: &[WordPlace(PromiseWord)],
            places: &[WordPlace(PromiseWord), NamePlace, NumberPlace],
            more: &[WordPlace(TempWord)],
            again: &[],
        },
        FormKind::MatrixForm => a_form(
            Standing::Outside,
            MatrixWord,
            &[WordPlace(MatrixWord)],
            &[WordPlace(MatrixWord), NamePlace, NumberPlace, NumberPlace],
        ),
        FormKind::RowForm => Form {
            standing: Standing::InMatrix,
            first: RowWord,
            choice: &[WordPlace(RowWord)],
            places: &[WordPlace(RowWord)],
            more: &[PairPlace],
            again: &[PairPlace],
        },
        FormKind::FinishForm => a_form(
            Standing::Outside,
            FinishWord,
            &[WordPlace(FinishWord)],
            &[WordPlace(FinishWord), NamePlace],
        ),
        FormKind::GroupForm => awaiting(
            GroupWord,
            &[WordPlace(GroupWord)],
            &[WordPlace(GroupWord), NamePlace],
        ),
        FormKind::EndForm => a_form(
            Standing::Anywhere,
            EndWord,
            &[WordPlace(EndWord)],
            &[WordPlace(EndWord)],
        ),
        FormKind::PutForm => Form {
            standing: Standing::InTask,
            first: PutWord,
            choice: &[WordPlace(PutWord)],
            places: &[WordPlace(PutWord), NamePlace, NamePlace],
            more: &[WordPlace(WhenWord), NamePlace],
            again: &[],
        },
        FormKind::DropForm => a_form(
            Standing::InTask,
            DropWord,
            &[WordPlace(DropWord)],
            &[WordPlace(DropWord), NamePlace],
        ),
        FormKind::PlainForm | FormKind::ReplicateForm | FormKind::ReplayForm | FormKind::AbftForm =>
            task_form(kind),
        FormKind::LitForm
        | FormKind::GenForm
        | FormKind::AddForm
        | FormKind::SubForm
        | FormKind::MulForm
        | FormKind::ScaleForm
        | FormKind::ShiftForm
        | FormKind::CutForm
        | FormKind::JoinForm
        | FormKind::SumForm
        | FormKind::CountForm
        | FormKind::Stencil1Form
        | FormKind::Stencil2Form
        | FormKind::ProductForm => let_form(kind),
        FormKind::RangeForm
        | FormKind::TotalForm
        | FormKind::LinearForm
        | FormKind::ConserveForm
        | FormKind::Conserve2Form
        | FormKind::ProductCheckForm
        | FormKind::UserForm => check_form(kind),
    }
}

/// The row of a task.
fn task_form(kind: FormKind) -> Form
    requires { (form kind).first ≡ Keyword.TaskWord }
    ensures { IsForm result (form kind) }
{
    match kind {
        FormKind::PlainForm => a_task(&[WordPlace(TaskWord), NamePlace, WordPlace(PlainWord)]),
        FormKind::ReplicateForm => a_task(&[
            WordPlace(TaskWord),
            NamePlace,
            WordPlace(ReplicateWord),
        ]),
        FormKind::ReplayForm => a_task(&[
            WordPlace(TaskWord),
            NamePlace,
            WordPlace(ReplayWord),
            NumberPlace,
        ]),
        FormKind::AbftForm => a_task(&[WordPlace(TaskWord), NamePlace, WordPlace(AbftWord)]),
        _ => unreachable!(),
    }
}

/// The row of a `let`.
fn let_form(kind: FormKind) -> Form
    requires { (form kind).first ≡ Keyword.LetWord }
    ensures { IsForm result (form kind) }
{
    match kind {
        FormKind::LitForm => a_let(
            &[
                WordPlace(LetWord),
                NamePlace,
                WordPlace(LitWord),
                NumberPlace,
            ],
            &[NumberPlace],
        ),
        FormKind::GenForm => a_let(
            &[
                WordPlace(LetWord),
                NamePlace,
                WordPlace(GenWord),
                NumberPlace,
                NumberPlace,
                NumberPlace,
            ],
            &[],
        ),
        FormKind::AddForm => a_let(
            &[
                WordPlace(LetWord),
                NamePlace,
                WordPlace(AddWord),
                NamePlace,
                NamePlace,
            ],
            &[],
        ),
        FormKind::SubForm => a_let(
            &[
                WordPlace(LetWord),
                NamePlace,
                WordPlace(SubWord),
                NamePlace,
                NamePlace,
            ],
            &[],
        ),
        FormKind::MulForm => a_let(
            &[
                WordPlace(LetWord),
                NamePlace,
                WordPlace(MulWord),
                NamePlace,
                NamePlace,
            ],
            &[],
        ),
        FormKind::ScaleForm => a_let(
            &[
                WordPlace(LetWord),
                NamePlace,
                WordPlace(ScaleWord),
                NamePlace,
                NumberPlace,
            ],
            &[],
        ),
        FormKind::ShiftForm => a_let(
            &[
                WordPlace(LetWord),
                NamePlace,
                WordPlace(ShiftWord),
                NamePlace,
                NumberPlace,
            ],
            &[],
        ),
        FormKind::CutForm => a_let(
            &[
                WordPlace(LetWord),
                NamePlace,
                WordPlace(CutWord),
                NamePlace,
                NumberPlace,
                NumberPlace,
            ],
            &[],
        ),
        FormKind::JoinForm => a_let(
            &[
                WordPlace(LetWord),
                NamePlace,
                WordPlace(JoinWord),
                NamePlace,
            ],
            &[NamePlace],
        ),
        FormKind::SumForm => a_let(
            &[WordPlace(LetWord), NamePlace, WordPlace(SumWord), NamePlace],
            &[],
        ),
        FormKind::CountForm => a_let(
            &[
                WordPlace(LetWord),
                NamePlace,
                WordPlace(CountWord),
                NamePlace,
            ],
            &[],
        ),
        FormKind::Stencil1Form => a_let(
            &[
                WordPlace(LetWord),
                NamePlace,
                WordPlace(Stencil1Word),
                NamePlace,
                NamePlace,
                NamePlace,
                NumberPlace,
                NumberPlace,
            ],
            &[],
        ),
        FormKind::Stencil2Form => a_let(
            &[
                WordPlace(LetWord),
                NamePlace,
                WordPlace(Stencil2Word),
                NamePlace,
                NamePlace,
                NamePlace,
                NamePlace,
                NamePlace,
                NumberPlace,
                NumberPlace,
                NumberPlace,
            ],
            &[],
        ),
        FormKind::ProductForm => a_let(
            &[
                WordPlace(LetWord),
                NamePlace,
                WordPlace(ProductWord),
                NamePlace,
                NamePlace,
            ],
            &[],
        ),
        _ => unreachable!(),
    }
}

/// The row of a check.
fn check_form(kind: FormKind) -> Form
    requires { (form kind).first ≡ Keyword.CheckWord }
    ensures { IsForm result (form kind) }
{
    match kind {
        FormKind::RangeForm => a_check(
            &[
                WordPlace(CheckWord),
                WordPlace(RangeWord),
                NamePlace,
                NumberPlace,
                NumberPlace,
            ],
            &[],
        ),
        FormKind::TotalForm => a_check(
            &[
                WordPlace(CheckWord),
                WordPlace(TotalWord),
                NamePlace,
                NumberPlace,
            ],
            &[],
        ),
        FormKind::LinearForm => a_check(
            &[
                WordPlace(CheckWord),
                WordPlace(LinearWord),
                NamePlace,
                NumberPlace,
                NamePlace,
                NumberPlace,
            ],
            &[NamePlace, NumberPlace],
        ),
        FormKind::ConserveForm => a_check(
            &[
                WordPlace(CheckWord),
                WordPlace(ConserveWord),
                NamePlace,
                NamePlace,
                NamePlace,
                NamePlace,
                NumberPlace,
                NumberPlace,
            ],
            &[],
        ),
        FormKind::Conserve2Form => a_check(
            &[
                WordPlace(CheckWord),
                WordPlace(Conserve2Word),
                NamePlace,
                NamePlace,
                NamePlace,
                NamePlace,
                NamePlace,
                NamePlace,
                NumberPlace,
                NumberPlace,
                NumberPlace,
            ],
            &[],
        ),
        FormKind::ProductCheckForm => a_check(
            &[
                WordPlace(CheckWord),
                WordPlace(ProductWord),
                NamePlace,
                NamePlace,
                NamePlace,
            ],
            &[],
        ),
        FormKind::UserForm => a_check(
            &[
                WordPlace(CheckWord),
                WordPlace(UserWord),
                NamePlace,
                NamePlace,
            ],
            &[],
        ),
        _ => unreachable!(),
    }
}

/// A form whose line ends after its places.
fn a_form(
    standing: Standing,
    first: Keyword,
    choice: &'static [Place],
    places: &'static [Place],
) -> Form
    ensures { HasParts result standing first choice.now places.now [] [] }
{
    Form {
        standing,
        first,
        choice,
        places,
        more: &[],
        again: &[],
    }
}

/// A block that awaits promises.
fn awaiting(first: Keyword, choice: &'static [Place], places: &'static [Place]) -> Form
    ensures { HasParts result Standing.Outside first choice.now places.now awaiting (Place.NamePlace ∷ []) }
{
    Form {
        standing: Standing::Outside,
        first,
        choice,
        places,
        more: &[WordPlace(AwaitWord), NamePlace],
        again: &[NamePlace],
    }
}

/// A task of a scheme, which chooses the form with the words before it.
fn a_task(places: &'static [Place]) -> Form
    requires { 3 ≤ length places.now }
    ensures { HasParts result Standing.Outside Keyword.TaskWord (take 3 places.now) places.now awaiting (Place.NamePlace ∷ []) }
{
    awaiting(TaskWord, &places[..3], places)
}

/// A `let` of a kernel, which chooses the form with the words before it.
fn a_let(places: &'static [Place], again: &'static [Place]) -> Form
    requires { 3 ≤ length places.now }
    ensures { HasParts result Standing.InTask Keyword.LetWord (take 3 places.now) places.now again.now again.now }
{
    Form {
        standing: Standing::InTask,
        first: LetWord,
        choice: &places[..3],
        places,
        more: again,
        again,
    }
}

/// A check, whose name chooses the form with the word before it.
fn a_check(places: &'static [Place], again: &'static [Place]) -> Form
    requires { 2 ≤ length places.now }
    ensures { HasParts result Standing.InTask Keyword.CheckWord (take 2 places.now) places.now again.now again.now }
{
    Form {
        standing: Standing::InTask,
        first: CheckWord,
        choice: &places[..2],
        places,
        more: again,
        again,
    }
}

/// The rows in their order.
pub fn kinds() -> &'static [FormKind]
    ensures { result.now ≡ kinds }
{
    &[
        FormKind::PromiseForm,
        FormKind::MatrixForm,
        FormKind::RowForm,
        FormKind::PlainForm,
        FormKind::ReplicateForm,
        FormKind::ReplayForm,
        FormKind::AbftForm,
        FormKind::FinishForm,
        FormKind::GroupForm,
        FormKind::EndForm,
        FormKind::LitForm,
        FormKind::GenForm,
        FormKind::AddForm,
        FormKind::SubForm,
        FormKind::MulForm,
        FormKind::ScaleForm,
        FormKind::ShiftForm,
        FormKind::CutForm,
        FormKind::JoinForm,
        FormKind::SumForm,
        FormKind::CountForm,
        FormKind::Stencil1Form,
        FormKind::Stencil2Form,
        FormKind::ProductForm,
        FormKind::PutForm,
        FormKind::DropForm,
        FormKind::RangeForm,
        FormKind::TotalForm,
        FormKind::LinearForm,
        FormKind::ConserveForm,
        FormKind::Conserve2Form,
        FormKind::ProductCheckForm,
        FormKind::UserForm,
    ]
}
