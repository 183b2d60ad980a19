//! Replicated and replayed tasks under injected faults, through calls of the program. What each must write was worked out by hand.

use crate::calls::{Want, all_answer};
use crate::examples::{
    COUNTING, COUNTING_REPORT, EQUAL_FAULTS, EQUAL_FAULTS_REPORT, EQUAL_FAULTS_TEXT, HEAT,
    HEAT_FAULTS, HEAT_REPORT, OVER_BUDGET, OVER_BUDGET_FAULTS, OVER_BUDGET_REPORT, PASSING_FAULTS,
    PASSING_FAULTS_REPORT, PASSING_FAULTS_TEXT, REPLAYED, REPLAYED_FAULTS, REPLAYED_REPORT,
    REPLICATED, REPLICATED_FAULTS, REPLICATED_REPORT, SKIPPED_FAULT, SKIPPED_FAULT_REPORT,
    SKIPPED_FAULT_TEXT,
};
use crate::faults::{FaultedRow, all_answer_under, are_refused_under, runs_under, stored_with};
use std::alloc::Global;
use std::test::Fail;

/// The examples with faults.
const EXAMPLES: &[FaultedRow<'static>] = &[
    (REPLICATED, REPLICATED_FAULTS, 0, REPLICATED_REPORT),
    (REPLAYED, REPLAYED_FAULTS, 0, REPLAYED_REPORT),
    (OVER_BUDGET, OVER_BUDGET_FAULTS, 1, OVER_BUDGET_REPORT),
    (HEAT, HEAT_FAULTS, 0, HEAT_REPORT),
    (EQUAL_FAULTS, EQUAL_FAULTS_TEXT, 0, EQUAL_FAULTS_REPORT),
    (
        PASSING_FAULTS,
        PASSING_FAULTS_TEXT,
        0,
        PASSING_FAULTS_REPORT,
    ),
    (SKIPPED_FAULT, SKIPPED_FAULT_TEXT, 0, SKIPPED_FAULT_REPORT),
];

#[test]
fn the_examples_under_faults_have_their_reports(rt: HostRuntime) -> Result<(), Fail> {
    assert!(rt; all_answer_under(rt.alloc(), EXAMPLES)?);
    Ok(())
}

/// A replicated task.
const TWO_REPLICAS: &[u8] = b"rhc 1
promise x 2
task a replicate
let v lit 5 6
put x v
end
";

const TWO_REPLICAS_REPORT: &[u8] = b"rhr 1
task a accepted 0
  attempt 0 accepted
  attempt 1 agreed
promise x by a attempt 0: 5 6
total tasks 1 accepted 1 failed 0 skipped 0 puts 1 faults 0 of 0
";

/// A replicated task whose put hangs on a local.
const MAYBE_PUT: &[u8] = b"rhc 1
promise x 1
task a replicate
let c lit 1
let v lit 7
put x v when c
end
";

/// A replicated task, and two that await what it puts, one behind the other.
const CHAIN_OF_THREE: &[u8] = b"rhc 1
promise x 2
promise y 2
promise z 2
task a replicate
let v lit 5 6
put x v
end
task b plain await x
put y x
end
task c plain await y x
put z y
end
";

/// A replayed task, whose put must sum to 30.
const THREE_TRIES: &[u8] = b"rhc 1
promise x 2
task a replay 3
let v lit 10 20
put x v
check total x 30
end
";

/// A check reads the awaited promise itself, and not the attempt's copy.
const CHECKED_BY_ITS_INPUT: &[u8] = b"rhc 1
promise x 1
promise y 1
task a plain
let v lit 7
put x v
end
task b replay 2 await x
let w add x x
put y w
check linear y 0 x 2
end
";

/// A copy of an awaited promise is put as it is.
const PUT_AS_AWAITED: &[u8] = b"rhc 1
promise x 1
promise y 1
task a plain
let v lit 7
put x v
end
task b replicate await x
put y x
end
";

/// Programs under faults, the status, and what `out` takes.
const SCHEMES_UNDER_FAULTS: &[FaultedRow<'static>] = &[
    (
        TWO_REPLICAS,
        b"rhf 1\nfault a 1 v 0 4\n",
        0,
        b"rhr 1
task a accepted 0
  attempt 0 accepted
  attempt 1 differed
  attempt 2 agreed
promise x by a attempt 0: 5 6
total tasks 1 accepted 1 failed 0 skipped 0 puts 1 faults 1 of 1
",
    ),
    (
        MAYBE_PUT,
        b"rhf 1\nfault a 0 c 0 1\n",
        0,
        b"rhr 1
task a accepted 1
  attempt 0 differed
  attempt 1 accepted
  attempt 2 agreed
promise x by a attempt 1: 7
total tasks 1 accepted 1 failed 0 skipped 0 puts 1 faults 1 of 1
",
    ),
    (
        TWO_REPLICAS,
        b"rhf 1\nfault a 0 v 0 4\nfault a 1 v 0 4\n",
        0,
        b"rhr 1
task a accepted 0
  attempt 0 accepted
  attempt 1 agreed
promise x by a attempt 0: 1 6
total tasks 1 accepted 1 failed 0 skipped 0 puts 1 faults 2 of 2
",
    ),
    (
        CHAIN_OF_THREE,
        b"rhf 1\nfault a 0 v 0 1\nfault a 1 v 0 2\n",
        1,
        b"rhr 1
task a failed
  attempt 0 differed
  attempt 1 differed
  attempt 2 differed
task b skipped by x
task c skipped by y
promise x by a void
promise y by b void
promise z by c void
total tasks 3 accepted 0 failed 1 skipped 2 puts 0 faults 2 of 2
",
    ),
    (
        THREE_TRIES,
        b"rhf 1\nfault a 0 v 0 1\nfault a 1 v 1 8\n",
        0,
        b"rhr 1
task a accepted 2
  attempt 0 refused 0
  attempt 1 refused 0
  attempt 2 accepted
promise x by a attempt 2: 10 20
total tasks 1 accepted 1 failed 0 skipped 0 puts 1 faults 2 of 2
",
    ),
    (
        THREE_TRIES,
        b"rhf 1\nfault a 0 v 0 1\nfault a 1 v 1 8\nfault a 2 v 0 2\n",
        1,
        b"rhr 1
task a failed
  attempt 0 refused 0
  attempt 1 refused 0
  attempt 2 refused 0
promise x by a void
total tasks 1 accepted 0 failed 1 skipped 0 puts 0 faults 3 of 3
",
    ),
    (
        THREE_TRIES,
        b"rhf 1\nfault a 2 v 0 2\n",
        0,
        b"rhr 1
task a accepted 0
  attempt 0 accepted
promise x by a attempt 0: 10 20
total tasks 1 accepted 1 failed 0 skipped 0 puts 1 faults 0 of 1
",
    ),
    (
        CHECKED_BY_ITS_INPUT,
        b"rhf 1\nfault b 0 x 0 1\n",
        0,
        b"rhr 1
task a accepted 0
  attempt 0 accepted
task b accepted 1
  attempt 0 refused 0
  attempt 1 accepted
promise x by a attempt 0: 7
promise y by b attempt 1: 14
total tasks 2 accepted 2 failed 0 skipped 0 puts 2 faults 1 of 1
",
    ),
    (
        PUT_AS_AWAITED,
        b"rhf 1\nfault b 0 x 0 1\n",
        0,
        b"rhr 1
task a accepted 0
  attempt 0 accepted
task b accepted 1
  attempt 0 differed
  attempt 1 accepted
  attempt 2 agreed
promise x by a attempt 0: 7
promise y by b attempt 1: 7
total tasks 2 accepted 2 failed 0 skipped 0 puts 2 faults 1 of 1
",
    ),
];

#[test]
fn schemes_save_what_they_can(rt: HostRuntime) -> Result<(), Fail> {
    assert!(rt; all_answer_under(rt.alloc(), SCHEMES_UNDER_FAULTS)?);
    Ok(())
}

/// What a replayed task writes that is accepted at once.
const ONE_TRY_REPORT: &[u8] = b"rhr 1
task a accepted 0
  attempt 0 accepted
promise x by a attempt 0: 10 20
total tasks 1 accepted 1 failed 0 skipped 0 puts 1 faults 0 of 0
";

/// Programs without faults: a scope that counts, replicated, and replayed at most once, eight times, and more often than may be.
const SCHEMES_WITHOUT_FAULTS: &[(&[u8], Want<'static>)] = &[
    (COUNTING, (1, COUNTING_REPORT, b"")),
    (TWO_REPLICAS, (0, TWO_REPLICAS_REPORT, b"")),
    (
        b"rhc 1\npromise x 2\ntask a replay 1\nlet v lit 10 20\nput x v\ncheck total x 30\nend\n",
        (0, ONE_TRY_REPORT, b""),
    ),
    (
        b"rhc 1\npromise x 2\ntask a replay 8\nlet v lit 10 20\nput x v\ncheck total x 30\nend\n",
        (0, ONE_TRY_REPORT, b""),
    ),
    (
        b"rhc 1\npromise x 2\ntask a replay 9\nlet v lit 10 20\nput x v\ncheck total x 30\nend\n",
        (3, b"", b"rh: program line 3 reason 15 Scheme\n"),
    ),
];

#[test]
fn schemes_run_without_faults(rt: HostRuntime) -> Result<(), Fail> {
    assert!(rt; all_answer(rt.alloc(), SCHEMES_WITHOUT_FAULTS)?);
    Ok(())
}

/// Faults that are refused under the replicated task, and what `err` takes.
const REFUSED_UNDER_REPLICAS: &[(&[u8], &[u8])] = &[
    (
        b"rhf 1\nfault a 0 v 0 0\n",
        b"rh: faults line 2 reason 24 ZeroMask\n",
    ),
    (
        b"rhf 1\nfault a 0 v 0 4\nfault a 0 v 0 4\n",
        b"rh: faults line 3 reason 25 Twice\n",
    ),
    (
        b"rhf 1\nfault a 2 v 0 4\nfault a 3 v 0 4\n",
        b"rh: faults line 3 reason 21 Attempt\n",
    ),
];

#[test]
fn replicas_have_three_attempts_at_most(rt: HostRuntime) -> Result<(), Fail> {
    assert!(rt; are_refused_under(rt.alloc(), TWO_REPLICAS, REFUSED_UNDER_REPLICAS)?);
    Ok(())
}

/// Whether a run in which a task fails, with so much room on the output, answers as it must.
fn fails_into(alloc: Global, room: usize, want: Want<'_>) -> Result<bool, Fail> {
    let mut store = stored_with(alloc, OVER_BUDGET, OVER_BUDGET_FAULTS)?;
    runs_under(alloc, &mut store, room, want)
}

/// A failed task is told by the status only where the whole report was written.
#[test]
fn a_failed_task_has_a_status(rt: HostRuntime) -> Result<(), Fail> {
    let alloc = rt.alloc();
    assert!(rt; fails_into(alloc, 4096, (1, OVER_BUDGET_REPORT, b""))?);
    assert!(rt; fails_into(alloc, 12, (6, b"rhr 1\ntask a", b"rh: out failed\n"))?);
    Ok(())
}
