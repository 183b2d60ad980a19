//! The texts that a command writes, from the files that it reads.

ghost use Rattle.std.specs.Prelude.{◌≡◌, ◌≤◌, IfOk, MatchResult, length};
ghost use Rattle.std.specs.Option.{option_map};
ghost use Rattle.rh_words.specs.Refusals.{OnRefused};
ghost use Rattle.rh_outside.specs.States.{KeepsFiles, KeepsCounts};
ghost use Rattle.rh_plan.specs.Users.{AreChecksOf};
ghost use Rattle.rh_top.specs.CallSteps.{AreTextsFor, AreTextsOfRun, StopsBy, refusal_of, BytesOr, PlansOr, FaultsOr, RunsOr};
ghost use Rattle.rh_top.specs.FileCommand.{command_data};
ghost use Rattle.rh_check.specs.Users.{handed_checks};
ghost use Rattle.rh_top.specs.Programs.{IsProgram, IsRefusedProgram, AreFaultsIn, AreRefusedFaults};

use crate::command::FileCommand;
use rh_check::Checks;
use rh_injector::{Faults, read_faults};
use rh_outside::{ReadAnswer, Shelf};
use rh_plain::run_plain;
use rh_plan::{Plan, plan, resolve};
use rh_report::print_outcome;
use rh_schemes::Gate;
use rh_task_text::read_program;
use rh_words::limits::{MAX_FAULT_BYTES, MAX_PROGRAM_BYTES};
use rh_words::{Bytes, Fault, OutOfMemory, Reason, Refusal};
use std::alloc::Global;

/// What a command writes.
#[derive(Drop)]
pub struct Texts {
    /// The text for the output.
    pub out: Bytes,
    /// Whether a task failed.
    pub failed: bool,
}

/// Why a command came to no texts.
#[derive(Drop)]
pub enum Stop {
    /// The program is over its limit, or has this first bad line.
    ProgramRefused(Refusal),
    /// The fault file is over its limit, or has this first bad line.
    FaultsRefused(Refusal),
    /// A file could not be read.
    ReadFailed,
    /// Memory was wanting.
    OutOfMemory,
}

impl From<OutOfMemory> for Stop {
    ghost use Rattle.std.specs.Prelude.{◌≡◌};
    ghost use Rattle.rh_top.specs.declared.texts.Stop.TheVariants.{OutOfMemory};

    ghost from_gives = { λ _ stop. stop ≡ OutOfMemory };

    fn from(_error: OutOfMemory) -> Stop {
        Stop::OutOfMemory
    }
}

/// The texts of a command. Reads the program and then its faults, and changes no file.
pub fn compose<S: Shelf, C: Checks, G: Gate>(
    alloc: Global,
    command: &FileCommand<'_>,
    files: &mut S,
    checks: &C,
    gate: &G,
) -> Result<Texts, Stop>
    ensures files { KeepsFiles (S.state files.old) (S.state files.new) }
    ensures counts { KeepsCounts (S.state files.old) (S.state files.new) }
    ensures texts { MatchResult result
        (AreTextsFor (handed_checks (C.names checks.now) (C.specs checks.now)) (S.state files.old) (command_data command.now))
        (StopsBy (handed_checks (C.names checks.now) (C.specs checks.now)) (S.state files.old) (S.state files.new) (command_data command.now)) }
{
    let plan = load_plan(alloc, command.program(), files, checks)?;
    run_under(alloc, &plan, command.faults(), files, checks, gate)
}

/// The texts of a run of the plan under the faults in a file, or under none where no file is named.
fn run_under<S: Shelf, C: Checks, G: Gate>(
    alloc: Global,
    plan: &Plan,
    name: Option<&str>,
    files: &mut S,
    checks: &C,
    gate: &G,
) -> Result<Texts, Stop>
    requires checks { AreChecksOf plan.now (C.specs checks.now) }
    ensures files { KeepsFiles (S.state files.old) (S.state files.new) }
    ensures counts { KeepsCounts (S.state files.old) (S.state files.new) }
    ensures texts { RunsOr (S.state files.old) (S.state files.new) plan.now (option_map (λ f. f.now) name.entry) result }
{
    let faults = load_faults(alloc, plan, name, files)?;
    let texts = report_run(alloc, plan, &faults, checks, gate)?;
    Ok(texts)
}

/// The plan of the program in a file.
fn load_plan<S: Shelf, C: Checks>(
    alloc: Global,
    name: &str,
    files: &mut S,
    checks: &C,
) -> Result<Plan, Stop>
    ensures files { KeepsFiles (S.state files.old) (S.state files.new) }
    ensures counts { KeepsCounts (S.state files.old) (S.state files.new) }
    ensures plan { PlansOr (handed_checks (C.names checks.now) (C.specs checks.now)) (S.state files.old) (S.state files.new) name.now result }
    ensures checks { IfOk result (λ plan. AreChecksOf plan (C.specs checks.now)) }
{
    let Some(bytes) = read_file(alloc, name, MAX_PROGRAM_BYTES, files)? else {
        return Err(Stop::ProgramRefused(TOO_LONG));
    };
    match plan_text(alloc, bytes, checks) {
        Ok(plan) => Ok(plan),
        Err(Fault::Refused(refusal)) => Err(Stop::ProgramRefused(refusal)),
        Err(Fault::OutOfMemory) => Err(Stop::OutOfMemory),
    }
}

/// The bytes of a file, or none where it has more than `limit`.
fn read_file<S: Shelf>(
    alloc: Global,
    name: &str,
    limit: usize,
    files: &mut S,
) -> Result<Option<Bytes>, Stop>
    ensures files { KeepsFiles (S.state files.old) (S.state files.new) }
    ensures counts { KeepsCounts (S.state files.old) (S.state files.new) }
    ensures bytes { BytesOr (S.state files.old) (S.state files.new) name.now limit result }
{
    let mut bytes = Bytes::new(alloc);
    match files.read(name, limit, &mut bytes) {
        ReadAnswer::Ok => Ok(Some(bytes)),
        ReadAnswer::TooLong => Ok(None),
        ReadAnswer::Failed => Err(Stop::ReadFailed),
        ReadAnswer::OutOfMemory => Err(Stop::OutOfMemory),
    }
}

/// What is told of a file over its limit.
const TOO_LONG: Refusal = Refusal {
    line: 0,
    reason: Reason::Limit,
};

/// The plan of a program text. The text is given up, since a run needs its plan alone.
fn plan_text<C: Checks>(alloc: Global, bytes: Bytes, checks: &C) -> Result<Plan, Fault<Refusal>>
    requires { length bytes ≤ MAX_PROGRAM_BYTES }
    ensures ok { IfOk result (IsProgram (handed_checks (C.names checks.now) (C.specs checks.now)) bytes) }
    ensures checks { IfOk result (λ plan. AreChecksOf plan (C.specs checks.now)) }
    ensures refused { OnRefused result (λ refusal. IsRefusedProgram (handed_checks (C.names checks.now) (C.specs checks.now)) bytes (refusal_of refusal)) }
{
    let text = read_program(alloc, bytes.as_slice())?;
    plan(alloc, &text, checks)
}

/// The faults in a file, or none where no file is named.
fn load_faults<S: Shelf>(
    alloc: Global,
    plan: &Plan,
    name: Option<&str>,
    files: &mut S,
) -> Result<Faults, Stop>
    ensures files { KeepsFiles (S.state files.old) (S.state files.new) }
    ensures counts { KeepsCounts (S.state files.old) (S.state files.new) }
    ensures faults { FaultsOr (S.state files.old) (S.state files.new) plan.now (option_map (λ f. f.now) name.entry) result }
{
    let Some(name) = name else {
        return Ok(Faults::new(alloc));
    };
    let Some(bytes) = read_file(alloc, name, MAX_FAULT_BYTES, files)? else {
        return Err(Stop::FaultsRefused(TOO_LONG));
    };
    match faults_in(alloc, bytes, plan) {
        Ok(faults) => Ok(faults),
        Err(Fault::Refused(refusal)) => Err(Stop::FaultsRefused(refusal)),
        Err(Fault::OutOfMemory) => Err(Stop::OutOfMemory),
    }
}

/// The faults of a fault text in a plan.
fn faults_in(alloc: Global, bytes: Bytes, plan: &Plan) -> Result<Faults, Fault<Refusal>>
    requires { length bytes ≤ MAX_FAULT_BYTES }
    ensures ok { IfOk result (AreFaultsIn plan.now bytes) }
    ensures refused { OnRefused result (λ refusal. AreRefusedFaults plan.now bytes (refusal_of refusal)) }
{
    let text = read_faults(alloc, bytes.as_slice())?;
    resolve(alloc, &text, plan)
}

/// Runs the plan under these faults, and answers its report.
fn report_run<C: Checks, G: Gate>(
    alloc: Global,
    plan: &Plan,
    faults: &Faults,
    checks: &C,
    gate: &G,
) -> Result<Texts, OutOfMemory>
    requires checks { AreChecksOf plan.now (C.specs checks.now) }
    ensures { IfOk result (AreTextsOfRun plan.now faults.now) }
{
    let _known = plan.nodes();
    let outcome = run_plain(alloc, plan, faults, checks, gate)?;
    let mut out = Bytes::new(alloc);
    let failed = print_outcome(alloc, plan, faults, &outcome, &mut out)?;
    Ok(Texts { out, failed })
}
