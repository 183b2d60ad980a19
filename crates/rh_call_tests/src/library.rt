//! The library used without the program: a text is read, planned, run and reported. The example of rh_plain stands here, so that it is compiled and run.
//! The journals were worked out by hand.

ghost use Rattle.std.specs.Prelude.{◌≤◌, [], IfOk, length};
ghost use Rattle.rh_plan.specs.Users.{AreChecksOf};

use crate::examples::{CHAIN, CHAIN_REPORT};
use rh_check::NoChecks;
use rh_injector::Faults;
use rh_journal::{Entry, Event, Outcome};
use rh_plain::run_plain;
use rh_plan::{Plan, Trial, Verdict, plan};
use rh_report::{has_failed, print_report};
use rh_schemes::OpenGate;
use rh_task_text::read_program;
use rh_words::{Bytes, Fault, OutOfMemory, Refusal};
use std::alloc::Global;

/// One task puts a `temp` promise that nobody awaits.
const ALONE: &[u8] = b"rhc 1
promise t 1 temp
task a plain
let v lit 9
put t v
end
";

/// The second task drops one of the two promises that it awaits.
const DROPPING: &[u8] = b"rhc 1
promise x 1 temp
promise y 1 temp
task a plain
let v lit 1
put x v
put y v
end
task b plain await x y
drop y
end
";

const ACCEPTED: Verdict = Verdict::Accepted { attempt: 0 };

/// What happens in the chain of two tasks, both of whose promises are shown.
const CHAIN_EVENTS: &[Event] = &[
    Event::Claim { node: 0 },
    Event::Attempt {
        node: 0,
        attempt: 0,
        trial: Trial::Accepted,
    },
    Event::Put {
        promise: 0,
        attempt: 0,
    },
    Event::Release {
        promise: 0,
        by: Some(0),
    },
    Event::Decide {
        node: 0,
        verdict: ACCEPTED,
    },
    Event::Claim { node: 1 },
    Event::Attempt {
        node: 1,
        attempt: 0,
        trial: Trial::Accepted,
    },
    Event::Put {
        promise: 1,
        attempt: 0,
    },
    Event::Release {
        promise: 0,
        by: Some(1),
    },
    Event::Release {
        promise: 1,
        by: Some(1),
    },
    Event::Decide {
        node: 1,
        verdict: ACCEPTED,
    },
    Event::Release {
        promise: 0,
        by: None,
    },
    Event::Free { promise: 0 },
    Event::Release {
        promise: 1,
        by: None,
    },
    Event::Free { promise: 1 },
];

/// A promise that nobody awaits is freed when its task gives it up.
const ALONE_EVENTS: &[Event] = &[
    Event::Claim { node: 0 },
    Event::Attempt {
        node: 0,
        attempt: 0,
        trial: Trial::Accepted,
    },
    Event::Put {
        promise: 0,
        attempt: 0,
    },
    Event::Release {
        promise: 0,
        by: Some(0),
    },
    Event::Free { promise: 0 },
    Event::Decide {
        node: 0,
        verdict: ACCEPTED,
    },
];

/// The dropped promise is released before the other.
const DROPPING_EVENTS: &[Event] = &[
    Event::Claim { node: 0 },
    Event::Attempt {
        node: 0,
        attempt: 0,
        trial: Trial::Accepted,
    },
    Event::Put {
        promise: 0,
        attempt: 0,
    },
    Event::Put {
        promise: 1,
        attempt: 0,
    },
    Event::Release {
        promise: 0,
        by: Some(0),
    },
    Event::Release {
        promise: 1,
        by: Some(0),
    },
    Event::Decide {
        node: 0,
        verdict: ACCEPTED,
    },
    Event::Claim { node: 1 },
    Event::Attempt {
        node: 1,
        attempt: 0,
        trial: Trial::Accepted,
    },
    Event::Release {
        promise: 1,
        by: Some(1),
    },
    Event::Free { promise: 1 },
    Event::Release {
        promise: 0,
        by: Some(1),
    },
    Event::Free { promise: 0 },
    Event::Decide {
        node: 1,
        verdict: ACCEPTED,
    },
];

/// The plan of a program.
fn load(alloc: Global, program: &[u8]) -> Result<Plan, Fault<Refusal>>
    requires { length program.now ≤ 4194304 }
    ensures { IfOk result (λ plan. AreChecksOf plan []) }
{
    let text = read_program(alloc, program)?;
    plan(alloc, &text, &NoChecks)
}

/// The outcome of its run.
fn run(alloc: Global, plan: &Plan) -> Result<Outcome, OutOfMemory>
    requires { AreChecksOf plan.now [] }
{
    let faults = Faults::new(alloc);
    run_plain(alloc, plan, &faults, &NoChecks, &OpenGate)
}

/// The report of its run.
fn report(alloc: Global, plan: &Plan) -> Result<Bytes, OutOfMemory>
    requires { AreChecksOf plan.now [] }
{
    let _known = plan.nodes();
    let faults = Faults::new(alloc);
    let outcome = run_plain(alloc, plan, &faults, &NoChecks, &OpenGate)?;
    let mut report = Bytes::new(alloc);
    print_report(alloc, plan, &faults, &outcome, &mut report)?;
    Ok(report)
}

/// Whether a task of its run failed.
fn fails(alloc: Global, plan: &Plan) -> Result<bool, OutOfMemory>
    requires { AreChecksOf plan.now [] }
{
    let faults = Faults::new(alloc);
    let outcome = run_plain(alloc, plan, &faults, &NoChecks, &OpenGate)?;
    has_failed(alloc, plan, &faults, &outcome)
}

/// Whether a task of a program failed, where it has a run.
fn program_fails(alloc: Global, program: &[u8]) -> Option<bool>
    requires { length program.now ≤ 4194304 }
{
    match load(alloc, program) {
        Ok(plan) => fails(alloc, &plan).ok(),
        Err(_) => None,
    }
}

/// The outcome of a program, where it has one.
fn outcome_of(alloc: Global, program: &[u8]) -> Option<Outcome>
    requires { length program.now ≤ 4194304 }
{
    match load(alloc, program) {
        Ok(plan) => run(alloc, &plan).ok(),
        Err(_) => None,
    }
}

/// The report of a program, where it has one.
fn report_of(alloc: Global, program: &[u8]) -> Option<Bytes>
    requires { length program.now ≤ 4194304 }
{
    match load(alloc, program) {
        Ok(plan) => report(alloc, &plan).ok(),
        Err(_) => None,
    }
}

/// Whether the journal has these events, numbered from 0 and on worker 0.
fn has_events(outcome: &Outcome, events: &[Event]) -> bool {
    let entries = outcome.journal.entries();
    let mut same = entries.len() == events.len();
    for (entry, event) in entries.iter().zip(events.iter()) {
        same = same && entry.worker == 0 && entry.event == *event;
    }
    same && are_numbered(entries)
}

fn are_numbered(entries: &[Entry]) -> bool {
    let mut numbered = true;
    for (number, entry) in entries.iter().enumerate() {
        numbered = numbered && entry.number == number as u64;
    }
    numbered
}

/// Whether a promise is shown with these words, or not shown.
fn shows(outcome: &Outcome, promise: u32, want: &[u64]) -> bool {
    match outcome.shown.get(promise) {
        Some(words) => words.as_slice() == want,
        None => want.is_empty(),
    }
}

/// Whether each of these promises is shown with its words.
fn show(outcome: &Outcome, words: &[(u32, &[u64])]) -> bool {
    let mut same = true;
    for (promise, want) in words {
        same = same && shows(outcome, *promise, want);
    }
    same
}

/// Whether a program has these events, and shows these words.
fn runs_so(alloc: Global, program: &[u8], events: &[Event], words: &[(u32, &[u64])]) -> bool
    requires { length program.now ≤ 4194304 }
{
    match outcome_of(alloc, program) {
        Some(outcome) => has_events(&outcome, events) && show(&outcome, words),
        None => false,
    }
}

/// Whether the chain has its report.
fn is_reported(alloc: Global) -> bool {
    match report_of(alloc, CHAIN) {
        Some(report) => report.as_slice() == CHAIN_REPORT,
        None => false,
    }
}

#[test]
fn a_text_is_read_planned_run_and_reported(rt: HostRuntime) {
    assert!(rt; is_reported(rt.alloc()));
}

/// The words of the promises of the chain; there is no third.
const CHAIN_WORDS: &[(u32, &[u64])] = &[(0, &[1, 2, 3]), (1, &[2, 4, 6]), (2, &[])];

#[test]
fn a_chain_has_this_journal_and_these_words(rt: HostRuntime) {
    assert!(rt; runs_so(rt.alloc(), CHAIN, CHAIN_EVENTS, CHAIN_WORDS));
}

/// The one task fails its check.
const FAILING: &[u8] = b"rhc 1
promise t 1 temp
task a replay 1
let v lit 9
put t v
check range t 0 8
end
";

#[test]
fn an_outcome_tells_whether_a_task_failed(rt: HostRuntime) {
    assert!(rt; program_fails(rt.alloc(), CHAIN) == Some(false));
    assert!(rt; program_fails(rt.alloc(), FAILING) == Some(true));
}

#[test]
fn a_promise_that_nobody_awaits_is_freed_by_its_task(rt: HostRuntime) {
    assert!(rt; runs_so(rt.alloc(), ALONE, ALONE_EVENTS, &[(0, &[])]));
}

#[test]
fn a_dropped_promise_is_released_first(rt: HostRuntime) {
    assert!(rt; runs_so(rt.alloc(), DROPPING, DROPPING_EVENTS, &[]));
}
