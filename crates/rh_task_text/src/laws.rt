//! What holds of program texts, whatever the bytes.

ghost use Rattle.std.specs.Prelude.{◌≡◌, ◌↔◌, ◌⊎◌, ◌≤◌, ◌<◌, ◌+◌, ◌^◌, ℕ, List, All, map, length, true};
ghost use Rattle.rh_words.specs.declared.reason.Reason.{Reason};
ghost use Rattle.rh_task_text.specs.declared.statement.Statement.{Statement};
ghost use Rattle.rh_task_text.specs.declared.form.FormKind.{FormKind};
ghost use Rattle.rh_words.specs.declared.value.Value.{Value};
ghost use Rattle.std.specs.List.{list_all};
ghost use Rattle.rh_words.specs.Naming.{is_name};
ghost use Rattle.rh_words.specs.declared.value.Value.TheVariants.{AName, ANumber};
ghost use Rattle.rh_words.specs.Values.{AreSayable};
ghost use Rattle.rh_task_text.specs.Blocks.{open_blocks, lets_here, checks_here};
ghost use Rattle.rh_task_text.specs.Forms.{form};
ghost use Rattle.rh_task_text.specs.Statements.{awaits_said, Spells, FitForm};
ghost use Rattle.rh_words.specs.Values.{SayWords};
ghost use Rattle.rh_task_text.specs.Program.{ProgramText, IsLawfulText, AllStand, Reads, FirstBad};
ghost use Rattle.rh_task_text.specs.Printing.{program_text, as_printed};

use rh_words::limits::{MAX_CHECKS, MAX_LETS, MAX_NESTING};

/// Bytes are read as one text at most.
pub fn a_text_is_read_in_one_way()
    ensures { (bytes : List ℕ) (a b : ProgramText) → Reads bytes a → Reads bytes b → a ≡ b }
{}

/// What is read is a lawful text.
pub fn read_texts_are_lawful()
    ensures { (bytes : List ℕ) (text : ProgramText) → Reads bytes text → IsLawfulText text }
{}

/// What is read has no first bad line.
pub fn read_texts_have_no_bad_line()
    ensures { (bytes : List ℕ) (text : ProgramText) (line : ℕ) (reason : Reason) → Reads bytes text → FirstBad bytes line reason → ⊥ }
{}

/// Two first bad lines of one text are the same line, with the same reason.
pub fn a_text_has_one_first_bad_line()
    ensures { (bytes : List ℕ) (l m : ℕ) (r q : Reason) → FirstBad bytes l r → FirstBad bytes m q → (l ≡ m) × (r ≡ q) }
{}

/// All bytes are read as a text, or have a first bad line.
pub fn each_text_is_read_or_has_a_bad_line()
    ensures { (bytes : List ℕ) → ((text : ProgramText) × Reads bytes text) ⊎ ((line : ℕ) × (reason : Reason) × FirstBad bytes line reason) }
{}

/// Words spell a statement exactly where what they say has the shape of a form of the table.
pub fn statements_have_the_forms_of_the_table()
    ensures { (words : List (List ℕ)) →
        ((s : Statement) × Spells words s) ↔ ((kind : FormKind) × (values : List Value) × SayWords words values × FitForm (form kind) values) }
{}

/// Words spell one statement at most.
pub fn words_spell_one_statement()
    ensures { (words : List (List ℕ)) (s t : Statement) → Spells words s → Spells words t → s ≡ t }
{}

/// The canonical text of a lawful text reads as the same version and statements, item i at line i + 2.
pub fn printed_texts_read_back()
    ensures { (text : ProgramText) → IsLawfulText text → Reads (program_text text) (as_printed text) }
{}

/// Below lawful statements a task has no more lines than its limits allow, and no more blocks are open than the scopes
/// allow, and one in them.
pub fn lawful_texts_keep_their_limits()
    ensures lets { (above : List Statement) → AllStand above → lets_here above ≤ MAX_LETS }
    ensures checks { (above : List Statement) → AllStand above → checks_here above ≤ MAX_CHECKS }
    ensures blocks { (above : List Statement) → AllStand above → length (open_blocks above) ≤ MAX_NESTING + 1 }
{}

/// The lists of names and of words that a lawful statement says are lists of names, and of words below 2 ^ 64.
pub fn lists_of_lawful_statements_are_names_and_words()
    ensures names { (names : List (List ℕ)) → AreSayable (map AName names) → list_all is_name names ≡ true }
    ensures awaits { (names : List (List ℕ)) → AreSayable (awaits_said names) → list_all is_name names ≡ true }
    ensures words { (words : List ℕ) → AreSayable (map ANumber words) → All (λ n. n < 2 ^ 64) words }
{}
