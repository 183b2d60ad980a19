//! What holds of calls, whatever the words and the files.

ghost use Rattle.std.specs.Prelude.{◌≡◌, ◌⊎◌, ◌↔◌, ℕ, List, Some, None};
ghost use Rattle.rh_injector.specs.declared.faults.Strike.{Strike};
ghost use Rattle.rh_plan.specs.Plans.{PlanData};
ghost use Rattle.rh_outside.specs.Shelves.{MayBe};
ghost use Rattle.rh_outside.specs.States.{StoreState};
ghost use Rattle.rh_top.specs.Command.{Text, Command, IsCommand, IsBadWords};
ghost use Rattle.rh_check.specs.Users.{HandedChecks};
ghost use Rattle.rh_top.specs.Programs.{TextRefusal, IsProgram, IsRefusedProgram, AreFaultsIn, AreRefusedFaults};
ghost use Rattle.rh_top.specs.Answer.{Answer, IsAnswer, HasPlan, ReadsFile, program_of, faults_of, stored};
ghost use Rattle.rh_top.specs.declared.status.Status.{Status};
ghost use Rattle.rh_top.specs.Promise.{Call, KeepsPromise, Tells, IsTold, status_number, answer_number};
ghost use Rattle.rh_top.specs.FaultFreeCalls.{ReportsOfCallsAreFaultFree};
ghost use Rattle.rh_top.specs.Excuses.{HasAnswer, MayAnswer, LostRead, LostOutput, IsExcused};

/// The bytes of a program have a plan or are refused, never both, and have one plan or one refusal.
pub fn a_program_has_a_plan_or_is_refused()
    ensures either { (checks : HandedChecks) (bytes : Text)
        → ((plan : PlanData) × IsProgram checks bytes plan) ⊎ ((r : TextRefusal) × IsRefusedProgram checks bytes r) }
    ensures never_both { (checks : HandedChecks) (bytes : Text) (plan : PlanData) (r : TextRefusal)
        → IsProgram checks bytes plan → IsRefusedProgram checks bytes r → ⊥ }
    ensures one_plan { (checks : HandedChecks) (bytes : Text) (p q : PlanData) → IsProgram checks bytes p → IsProgram checks bytes q → p ≡ q }
    ensures one_refusal { (checks : HandedChecks) (bytes : Text) (r s : TextRefusal)
        → IsRefusedProgram checks bytes r → IsRefusedProgram checks bytes s → r ≡ s }
{}

/// The bytes of a fault file have faults in a plan or are refused, never both, and have one list of faults or one refusal.
pub fn a_fault_file_has_faults_or_is_refused()
    ensures either { (plan : PlanData) (bytes : Text)
        → ((faults : List Strike) × AreFaultsIn plan bytes faults) ⊎ ((r : TextRefusal) × AreRefusedFaults plan bytes r) }
    ensures never_both { (plan : PlanData) (bytes : Text) (faults : List Strike) (r : TextRefusal)
        → AreFaultsIn plan bytes faults → AreRefusedFaults plan bytes r → ⊥ }
    ensures one_list { (plan : PlanData) (bytes : Text) (xs ys : List Strike)
        → AreFaultsIn plan bytes xs → AreFaultsIn plan bytes ys → xs ≡ ys }
    ensures one_refusal { (plan : PlanData) (bytes : Text) (r s : TextRefusal)
        → AreRefusedFaults plan bytes r → AreRefusedFaults plan bytes s → r ≡ s }
{}

/// By the files that are told a call has one answer, which is also the only one that it may have.
pub fn a_call_has_one_answer()
    ensures { (checks : HandedChecks) (files : StoreState) (words : List Text) (a b : Answer)
        → IsAnswer checks (IsTold files) words a → IsAnswer checks (MayBe files) words b → a ≡ b }
{}

/// The number tells the status, and so what holds of the call. It is that of the answer, but for the causes that excuse another.
pub fn statuses_are_exact()
    ensures numbered { (call : Call) (n : ℕ) (status : Status) → KeepsPromise call n → n ≡ status_number status → Tells call status }
    ensures bad_words { (call : Call) (n : ℕ) → KeepsPromise call n → (n ≡ 2) ↔ IsBadWords call.words }
    ensures answered { (call : Call) (n : ℕ) (a : Answer) → KeepsPromise call n → HasAnswer call a
        → (n ≡ answer_number a) ⊎ IsExcused call a n }
    ensures calm { (call : Call) (n : ℕ) (a : Answer) → KeepsPromise call n → HasAnswer call a
        → (LostRead call → ⊥) → (LostOutput call → ⊥) → (n ≡ answer_number a) ⊎ (n ≡ 7) }
    ensures unanswered { (call : Call) (n : ℕ) → KeepsPromise call n → ((a : Answer) → MayAnswer call a → ⊥)
        → ((n ≡ 5) × LostRead call) ⊎ (n ≡ 7) }
{}

/// A call has an answer where each file that its command reads is told. Where one that it comes to is told as not there,
/// it has none.
pub fn told_files_give_an_answer()
    ensures told { (checks : HandedChecks) (files : StoreState) (words : List Text)
        → ((c : Command) (name : Text) → IsCommand words c → ReadsFile c name → (bytes : Text) × IsTold files name bytes)
        → (a : Answer) × IsAnswer checks (IsTold files) words a }
    ensures no_program { (checks : HandedChecks) (files : StoreState) (words : List Text) (c : Command) (name : Text) → IsCommand words c
        → program_of c ≡ stored name → files.file name ≡ Some None
        → (a : Answer) → IsAnswer checks (MayBe files) words a → ⊥ }
    ensures no_faults { (checks : HandedChecks) (files : StoreState) (words : List Text) (c : Command) (name : Text) (plan : PlanData)
        → IsCommand words c → HasPlan checks (IsTold files) c plan → faults_of c ≡ stored name → files.file name ≡ Some None
        → (a : Answer) → IsAnswer checks (MayBe files) words a → ⊥ }
{}

/// Where a call ends with status 0 or 1 and each handed-in check has one name and asks one thing, the report that the output took tells
/// of each node that is within its fault budget, with all that it depends on, what it tells without faults.
pub fn reports_of_calls_are_fault_free()
    ensures { ReportsOfCallsAreFaultFree }
{
    rh_task_text::read_texts_are_lawful();
    rh_plan::planned_texts_have_lawful_plans();
    rh_report::reports_are_fault_free();
}
