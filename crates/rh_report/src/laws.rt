//! What holds of reports, whoever prints them.

ghost use Rattle.rh_report.specs.FaultFree.{ReportsAreFaultFree};

/// A report tells of a node that is within its fault budget, with all that it depends on, what it tells without faults: it ends as
/// without faults, and its promises are put exactly where they are put without faults and shown with their fault-free words. Only the number
/// of the accepted attempt may differ, and whether a word was corrected.
pub fn reports_are_fault_free()
    ensures { ReportsAreFaultFree }
{
    rh_plan::budgets_are_kept();
}
