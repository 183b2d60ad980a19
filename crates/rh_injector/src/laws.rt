//! What holds of every list of faults and of every fault text.

ghost use Rattle.std.specs.Prelude.{◌≡◌, ◌⊎◌, ℕ, List, Some, true, slice_get};
ghost use Rattle.rh_words.specs.declared.reason.Reason.{Reason};
ghost use Rattle.rh_injector.specs.declared.faults.Strike.{Strike};
ghost use Rattle.rh_injector.specs.declared.fault_text.FaultLine.{FaultLine};
ghost use Rattle.rh_injector.specs.Faults.{IsAscending, has_place_of};
ghost use Rattle.rh_injector.specs.FaultTexts.{Reads, FirstBad, IsLawfulText, fault_text, as_printed};

/// At most one fault has a given place.
pub fn each_place_has_one_fault()
    ensures { (faults : List Strike) (i j : ℕ) (s t : Strike) → IsAscending faults →
        slice_get faults i ≡ Some s → slice_get faults j ≡ Some t → has_place_of s t ≡ true → i ≡ j }
{}

/// Bytes are read as one list of faults at most.
pub fn a_fault_text_is_read_in_one_way()
    ensures { (bytes : List ℕ) (a b : List FaultLine) → Reads bytes a → Reads bytes b → a ≡ b }
{}

/// What is read has no first bad line.
pub fn read_fault_texts_have_no_bad_line()
    ensures { (bytes : List ℕ) (faults : List FaultLine) (line : ℕ) (reason : Reason) → Reads bytes faults → FirstBad bytes line reason → ⊥ }
{}

/// Two first bad lines of one text are the same line, with the same reason.
pub fn a_fault_text_has_one_first_bad_line()
    ensures { (bytes : List ℕ) (l m : ℕ) (r q : Reason) → FirstBad bytes l r → FirstBad bytes m q → (l ≡ m) × (r ≡ q) }
{}

/// All bytes are read as a fault text, or have a first bad line.
pub fn each_fault_text_is_read_or_has_a_bad_line()
    ensures { (bytes : List ℕ) → ((faults : List FaultLine) × Reads bytes faults) ⊎ ((line : ℕ) × (reason : Reason) × FirstBad bytes line reason) }
{}

/// The canonical text of lawful faults reads as the same faults, the i-th from 0 in line i + 2.
pub fn printed_fault_texts_read_back()
    ensures { (faults : List FaultLine) → IsLawfulText faults → Reads (fault_text faults) (as_printed faults) }
{}
