//! Reading the words of one line.

ghost use Rattle.std.specs.Prelude.{Some, IfOk};
ghost use Rattle.rh_words.specs.Text.{words_of};
ghost use Rattle.rh_words.specs.Refusals.{OnRefused};
ghost use Rattle.rh_task_text.specs.FormRows.{IsHead};
ghost use Rattle.rh_task_text.specs.LineReadings.{SaysForm, IsRefusedIn};

use crate::blocks::{may_stand, rows_fit};
use crate::choice::kind_chosen;
use crate::form::{Block, FormKind, Standing};
use crate::limits::MAX_LINE_WORDS;
use crate::table::form_of;
use rh_words::{Fault, Keyword, LineValues, PlaceWalk, Reason};

/// A form, where it stands, and the word that its lines begin with.
#[derive(Clone, Copy)]
pub struct Head {
    pub kind: FormKind,
    pub standing: Standing,
    pub first: Keyword,
}

/// Reads the words of a line, right in this block after so many of its rows, as values of its form. A line that is longer
/// than any statement within its limits is read to its end, but not kept.
pub fn read_words(
    values: &mut LineValues,
    here: Option<Block>,
    rows: u64,
    line: &[u8],
) -> Result<Head, Fault<Reason>>
    ensures ok { IfOk result (λ head. SaysForm here rows (words_of line.now) head.kind values.new) }
    ensures head { IfOk result (λ head. IsHead head) }
    ensures refused { OnRefused result (λ reason. IsRefusedIn here rows (words_of line.now) reason) }
{
    let Some(kind) = kind_chosen(line) else {
        return Err(Fault::Refused(Reason::Statement));
    };
    let row = form_of(kind);
    if !may_stand(row.standing, here) {
        return Err(Fault::Refused(Reason::Statement));
    }
    let places = PlaceWalk::of(row.places, row.more, row.again);
    let kept = values.read(places, MAX_LINE_WORDS, line)?;
    if !rows_fit(rows, here, kind) {
        return Err(Fault::Refused(Reason::Count));
    }
    if !kept {
        return Err(Fault::Refused(Reason::Limit));
    }
    Ok(Head {
        kind,
        standing: row.standing,
        first: row.first,
    })
}
