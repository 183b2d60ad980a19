//! What holds of plans and of first breaks, whatever the text.

ghost use Rattle.rh_planner.specs.Laws.{PlansAreUnique, PlannedTextsHaveNoBreak, TextsArePlannedOrBreak, FirstBreaksAreUnique, PlannedTextsAreLawful};

/// A text is planned in one way at most.
pub fn a_text_is_planned_in_one_way()
    ensures { PlansAreUnique }
{}

/// A text that is planned has no first break.
pub fn planned_texts_have_no_break()
    ensures { PlannedTextsHaveNoBreak }
{}

/// Each text is planned or has a first break.
pub fn each_text_is_planned_or_has_a_first_break()
    ensures { TextsArePlannedOrBreak }
{}

/// Two first breaks of a text are the same line, with the same reason.
pub fn a_text_has_one_first_break()
    ensures { FirstBreaksAreUnique }
{}

/// What a lawful text is planned as is lawful, where each handed-in check has one name and asks one thing.
pub fn planned_texts_are_lawful()
    ensures { PlannedTextsAreLawful }
{}
