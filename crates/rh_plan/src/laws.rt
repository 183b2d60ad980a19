//! What holds of every plan, whoever runs it.

ghost use Rattle.std.specs.Prelude.{◌≡◌, ◌⊎◌, ℕ, List};
ghost use Rattle.rh_words.specs.declared.reason.Reason.{Reason};
ghost use Rattle.rh_task_text.specs.Program.{ProgramText, IsLawfulText};
ghost use Rattle.rh_planner.specs.Planned.{FirstBreak};
ghost use Rattle.rh_injector.specs.declared.fault_text.FaultLine.{FaultLine};
ghost use Rattle.rh_check.specs.Users.{HandedChecks, ArePaired};
ghost use Rattle.rh_injector.specs.declared.faults.Strike.{Strike};
ghost use Rattle.rh_plan.specs.FaultLines.{AreFaultsOfText, FirstBadFault};
ghost use Rattle.rh_plan.specs.FaultsOfPlans.{AreFaultsOf};
ghost use Rattle.rh_plan.specs.Plans.{PlanData};
ghost use Rattle.rh_plan.specs.Planned.{IsPlanOf};
ghost use Rattle.rh_plan.specs.Lawful.{IsLawfulPlan};
ghost use Rattle.rh_plan.specs.Altered.{SummedTasksReplayWithin};
ghost use Rattle.rh_plan.specs.Budgets.{BudgetsAreKept, HasFaultFreeValues};
ghost use Rattle.rh_plan.specs.Followed.{AcceptedBuffersFollowBodies};
ghost use Rattle.rh_plan.specs.PlanTexts.{PlansSayTheirTexts};
ghost use Rattle.rh_plan.specs.Tried.{FewTrials};
ghost use Rattle.rh_plan.specs.Values.{ResultsRestOnLower, UnskippedTasksAreReady};

/// A plan says its text: the `promise` and `finish` lines are its promises, and all lines are those of matrices, tasks, groups and scopes,
/// within one another, which are its matrices and nodes, where the numbers of promises, matrices, locals and handed-in checks are read by
/// their names.
pub fn plans_say_their_texts()
    ensures { PlansSayTheirTexts }
{}

/// The plan of a lawful text is lawful, where each handed-in check has one name and asks one thing.
pub fn planned_texts_have_lawful_plans()
    ensures { (handed : HandedChecks) (text : ProgramText) (plan : PlanData) → ArePaired handed → IsLawfulText text → IsPlanOf handed text plan → IsLawfulPlan plan }
{}

/// The result of a node is what the results of the lower nodes give it, whatever higher nodes there are.
pub fn results_rest_on_lower()
    ensures { ResultsRestOnLower }
{}

/// A task that is not skipped awaits values that are there, as many words as their promises have, and its body is sound on them.
pub fn unskipped_tasks_are_ready()
    ensures { UnskippedTasksAreReady }
{}

/// A node ends as in the run without faults, with its fault-free values, where it and all that it depends on are within their fault budgets.
pub fn budgets_are_kept()
    ensures { BudgetsAreKept }
{}

/// Each promise whose putter and all that it depends on keep within their fault budgets has its fault-free value.
pub fn values_are_fault_free()
    ensures { (plan : PlanData) → IsLawfulPlan plan → (faults : List Strike) → HasFaultFreeValues plan faults }
{}

/// A replayed task keeps within its budget where a check of a sum reads each word that its faults alter, one word an attempt.
pub fn summed_tasks_replay_within()
    ensures { SummedTasksReplayWithin }
{}

/// Every accepted buffer drops what its task's body drops, and puts to no promise more often than the body does.
pub fn accepted_buffers_follow_bodies()
    ensures { AcceptedBuffersFollowBodies }
{}

/// No node has more trials than a task may have replays.
pub fn few_trials()
    ensures { FewTrials }
{}

/// With given handed-in checks each text has a plan or a first break, never both, and one plan at most.
pub fn a_text_has_a_plan_or_a_first_break()
    ensures either { (handed : HandedChecks) (text : ProgramText)
        → ((plan : PlanData) × IsPlanOf handed text plan) ⊎ ((line : ℕ) × (reason : Reason) × FirstBreak handed text line reason) }
    ensures never_both { (handed : HandedChecks) (text : ProgramText) (plan : PlanData) (line : ℕ) (reason : Reason)
        → IsPlanOf handed text plan → FirstBreak handed text line reason → ⊥ }
    ensures one_plan { (handed : HandedChecks) (text : ProgramText) (plan other : PlanData) → IsPlanOf handed text plan → IsPlanOf handed text other → plan ≡ other }
{}

/// The lines of a fault text have faults in a plan or a first bad line, never both; one list of faults, in order, and one line
/// with one reason. The faults of a text are the plan's.
pub fn a_fault_text_has_faults_or_a_first_bad_line()
    ensures either { (plan : PlanData) (lines : List FaultLine) → ((faults : List Strike) × AreFaultsOfText plan lines faults)
        ⊎ ((line : ℕ) × (reason : Reason) × FirstBadFault plan lines line reason) }
    ensures never_both { (plan : PlanData) (lines : List FaultLine) (faults : List Strike) (line : ℕ) (reason : Reason)
        → AreFaultsOfText plan lines faults → FirstBadFault plan lines line reason → ⊥ }
    ensures one_list { (plan : PlanData) (lines : List FaultLine) (xs ys : List Strike)
        → AreFaultsOfText plan lines xs → AreFaultsOfText plan lines ys → xs ≡ ys }
    ensures one_refusal { (plan : PlanData) (lines : List FaultLine) (l m : ℕ) (r q : Reason)
        → FirstBadFault plan lines l r → FirstBadFault plan lines m q → (l ≡ m) × (r ≡ q) }
    ensures plans { (plan : PlanData) (lines : List FaultLine) (faults : List Strike)
        → IsLawfulPlan plan → AreFaultsOfText plan lines faults → AreFaultsOf plan faults }
{}
