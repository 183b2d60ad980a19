//! The form of a line.

ghost use Rattle.std.specs.Prelude.{◌≡◌, ◌∷◌, List, ℕ, Some, IfSome, IsTrue, ◌↔◌, codes};
ghost use Rattle.rh_words.specs.Keywords.{keyword_text};
ghost use Rattle.rh_words.specs.Text.{words_of};
ghost use Rattle.rh_words.specs.Places.{agrees};
ghost use Rattle.rh_words.specs.declared.value.Place.TheVariants.{WordPlace};
ghost use Rattle.rh_task_text.specs.Forms.{form};
ghost use Rattle.rh_task_text.specs.LineReasons.{kind_chosen};

use crate::form::FormKind;
use crate::table::{form_of, kinds};
use rh_words::{Keyword, LineWords, agrees, says_keyword};

/// The form of the words of the line: the first that they agree with.
pub fn kind_chosen(line: &[u8]) -> Option<FormKind>
    ensures { result ≡ kind_chosen (words_of line.now) }
{
    match keywords_form(line) {
        Some(kind) => Some(kind),
        None => first_form(line),
    }
}

/// The form that the keywords of the line choose, which are there where the line says a statement.
fn keywords_form(line: &[u8]) -> Option<FormKind>
    ensures { IfSome result (λ kind. Some kind ≡ kind_chosen (words_of line.now)) }
{
    let mut words = LineWords::of(line);
    let first = words.next()?;
    if is_keyword(first, Keyword::LetWord) {
        return kernel_form(second_word(&mut words)?);
    }
    if is_keyword(first, Keyword::TaskWord) {
        return scheme_form(second_word(&mut words)?);
    }
    if is_keyword(first, Keyword::CheckWord) {
        return check_form(words.next()?);
    }
    lone_form(first)
}

/// The second of the words that are left.
fn second_word<'a>(words: &mut LineWords<'a>) -> Option<&'a [u8]>
    ensures { IfSome result (λ word. (first : List ℕ) × (words.old ≡ first ∷ word.now ∷ words.new)) }
{
    let _first = words.next()?;
    words.next()
}

/// The form of a line that begins so, where its first word alone chooses it.
#[tactic(auto, unfolding(crate::specs::LineReasons::kind_chosen))]
fn lone_form(first: &[u8]) -> Option<FormKind>
    ensures { IfSome result (λ kind. (rest : List (List ℕ)) → Some kind ≡ kind_chosen (first.now ∷ rest)) }
{
    if is_keyword(first, Keyword::PutWord) {
        return Some(FormKind::PutForm);
    }
    if is_keyword(first, Keyword::EndWord) {
        return Some(FormKind::EndForm);
    }
    if is_keyword(first, Keyword::PromiseWord) {
        return Some(FormKind::PromiseForm);
    }
    if is_keyword(first, Keyword::RowWord) {
        return Some(FormKind::RowForm);
    }
    if is_keyword(first, Keyword::DropWord) {
        return Some(FormKind::DropForm);
    }
    if is_keyword(first, Keyword::MatrixWord) {
        return Some(FormKind::MatrixForm);
    }
    if is_keyword(first, Keyword::FinishWord) {
        return Some(FormKind::FinishForm);
    }
    if is_keyword(first, Keyword::GroupWord) {
        return Some(FormKind::GroupForm);
    }
    None
}

/// The form of a task of this scheme.
#[tactic(auto, unfolding(crate::specs::LineReasons::kind_chosen))]
fn scheme_form(scheme: &[u8]) -> Option<FormKind>
    ensures { IfSome result (λ kind. (x : List ℕ) (rest : List (List ℕ)) → Some kind ≡ kind_chosen (codes "task" ∷ x ∷ scheme.now ∷ rest)) }
{
    if is_keyword(scheme, Keyword::PlainWord) {
        return Some(FormKind::PlainForm);
    }
    if is_keyword(scheme, Keyword::ReplicateWord) {
        return Some(FormKind::ReplicateForm);
    }
    if is_keyword(scheme, Keyword::ReplayWord) {
        return Some(FormKind::ReplayForm);
    }
    if is_keyword(scheme, Keyword::AbftWord) {
        return Some(FormKind::AbftForm);
    }
    None
}

/// The form of a check of this name.
#[tactic(auto, unfolding(crate::specs::LineReasons::kind_chosen))]
fn check_form(name: &[u8]) -> Option<FormKind>
    ensures { IfSome result (λ kind. (rest : List (List ℕ)) → Some kind ≡ kind_chosen (codes "check" ∷ name.now ∷ rest)) }
{
    if is_keyword(name, Keyword::RangeWord) {
        return Some(FormKind::RangeForm);
    }
    if is_keyword(name, Keyword::TotalWord) {
        return Some(FormKind::TotalForm);
    }
    if is_keyword(name, Keyword::LinearWord) {
        return Some(FormKind::LinearForm);
    }
    if is_keyword(name, Keyword::ConserveWord) {
        return Some(FormKind::ConserveForm);
    }
    if is_keyword(name, Keyword::Conserve2Word) {
        return Some(FormKind::Conserve2Form);
    }
    if is_keyword(name, Keyword::ProductWord) {
        return Some(FormKind::ProductCheckForm);
    }
    if is_keyword(name, Keyword::UserWord) {
        return Some(FormKind::UserForm);
    }
    None
}

/// The form of a `let` of this kernel.
#[tactic(auto, unfolding(crate::specs::LineReasons::kind_chosen))]
fn kernel_form(kernel: &[u8]) -> Option<FormKind>
    ensures { IfSome result (λ kind. (x : List ℕ) (rest : List (List ℕ)) → Some kind ≡ kind_chosen (codes "let" ∷ x ∷ kernel.now ∷ rest)) }
{
    if is_keyword(kernel, Keyword::LitWord) {
        return Some(FormKind::LitForm);
    }
    if is_keyword(kernel, Keyword::SumWord) {
        return Some(FormKind::SumForm);
    }
    if is_keyword(kernel, Keyword::AddWord) {
        return Some(FormKind::AddForm);
    }
    if is_keyword(kernel, Keyword::Stencil1Word) {
        return Some(FormKind::Stencil1Form);
    }
    if is_keyword(kernel, Keyword::SubWord) {
        return Some(FormKind::SubForm);
    }
    if is_keyword(kernel, Keyword::MulWord) {
        return Some(FormKind::MulForm);
    }
    if is_keyword(kernel, Keyword::ScaleWord) {
        return Some(FormKind::ScaleForm);
    }
    if is_keyword(kernel, Keyword::ShiftWord) {
        return Some(FormKind::ShiftForm);
    }
    if is_keyword(kernel, Keyword::GenWord) {
        return Some(FormKind::GenForm);
    }
    if is_keyword(kernel, Keyword::CutWord) {
        return Some(FormKind::CutForm);
    }
    if is_keyword(kernel, Keyword::JoinWord) {
        return Some(FormKind::JoinForm);
    }
    if is_keyword(kernel, Keyword::CountWord) {
        return Some(FormKind::CountForm);
    }
    if is_keyword(kernel, Keyword::ProductWord) {
        return Some(FormKind::ProductForm);
    }
    if is_keyword(kernel, Keyword::Stencil2Word) {
        return Some(FormKind::Stencil2Form);
    }
    None
}

/// The first form of the table that the words of the line agree with.
#[inline(never)]
#[tactic(auto, unfolding(crate::specs::LineReasons::kind_chosen))]
fn first_form(line: &[u8]) -> Option<FormKind>
    ensures { result ≡ kind_chosen (words_of line.now) }
{
    kinds()
        .iter()
        .copied()
        .find(|kind| agrees_with(*kind, line))
}

/// Whether the line's words that are there agree with the form.
fn agrees_with(kind: FormKind, line: &[u8]) -> bool
    ensures { result ≡ agrees (WordPlace (form kind).first ∷ (form kind).choice) (words_of line.now) }
{
    agrees(form_of(kind).choice, LineWords::of(line))
}

/// Whether the word is this keyword.
fn is_keyword(word: &[u8], keyword: Keyword) -> bool
    ensures { IsTrue result ↔ (word.now ≡ keyword_text keyword) }
{
    says_keyword(word, keyword)
}
