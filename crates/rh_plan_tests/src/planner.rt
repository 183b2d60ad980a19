//! Texts with their first break, by the rules of the language, and one plan.

use rh_check::{Checks, Spec, Term, UserSpec};
use rh_planner::{Drafts, drafts};
use rh_rules::{Kind, Node, PlannedCheck, Scheme, Step};
use rh_task_text::read_program;
use rh_words::{Bytes, Fault, Name, OutOfMemory, fold_sum, print_number};
use std::alloc::Global;
use std::test::Fail;

/// Ten lines: three promises, two of which a task puts.
const ABOVE: &[u8] = b"rhc 1
promise p 3
promise q 3 temp
promise w 1
task a plain
let x lit 1 2 3
let c sum x
put p x
put w c
end
";

/// Two handed-in checks of the name `f`: the words sum to 6, and to 7.
struct Two;

impl Checks for Two {
    ghost use Rattle.std.specs.Prelude.{[], ◌∷◌, codes};
    ghost use Rattle.rh_check.specs.declared.spec.UserSpec.TheVariants as user;

    ghost names = { λ c. codes "f" ∷ codes "f" ∷ [] };

    ghost specs = { λ c. user.Total 6 ∷ user.Total 7 ∷ [] };

    fn count(&self) -> u32 {
        2
    }

    fn name(&self, _at: u32) -> Name {
        match Name::read(b"f") {
            Some(name) => name,
            None => unreachable!(),
        }
    }

    fn spec(&self, at: u32) -> UserSpec {
        if at == 0 {
            UserSpec::Total { sum: 6 }
        } else {
            UserSpec::Total { sum: 7 }
        }
    }

    #[tactic(auto, unfolding(rh_check::specs::Checks::user_passes))]
    fn ask(&self, at: u32, words: &[u64]) -> bool {
        if at == 0 {
            fold_sum(words) == 6
        } else {
            fold_sum(words) == 7
        }
    }
}

/// The nodes and promises of a text, or its line and reason.
fn plan(alloc: Global, text: &[u8]) -> Result<Drafts, (u32, u8)> {
    if text.len() > 1000000 {
        return Err((99, 99));
    }
    let read = match read_program(alloc, text) {
        Ok(read) => read,
        Err(_) => return Err((99, 98)),
    };
    match drafts(alloc, &read, &Two) {
        Ok(drafts) => Ok(drafts),
        Err(Fault::OutOfMemory) => Err((99, 97)),
        Err(Fault::Refused(refusal)) => Err((refusal.line, refusal.reason.number())),
    }
}

/// The line and the number of the reason of the first break, or 0 and 0.
fn first_break(alloc: Global, text: &[u8]) -> (u32, u8) {
    match plan(alloc, text) {
        Ok(_) => (0, 0),
        Err(told) => told,
    }
}

/// The parts, one behind another.
fn text_of(alloc: Global, parts: &[&[u8]]) -> Result<Bytes, OutOfMemory> {
    let mut text = Bytes::new(alloc);
    for part in parts {
        text.append(part)?;
    }
    Ok(text)
}

/// The text that has these lines from line 11 on.
fn text_below(alloc: Global, lines: &[u8]) -> Result<Bytes, OutOfMemory> {
    text_of(alloc, &[ABOVE, lines])
}

/// Whether these lines from line 11 on have this first break.
fn breaks(alloc: Global, lines: &[u8], line: u32, reason: u8) -> Result<bool, OutOfMemory> {
    let text = text_below(alloc, lines)?;
    Ok(first_break(alloc, text.as_slice()) == (line, reason))
}

/// Lines from line 11 on, with the line and the number of the reason of their first break, or with 0 and 0.
type Row<'a> = (&'a [u8], u32, u8);

/// Whether the lines of each row have this first break.
fn are_judged(alloc: Global, rows: &[Row<'_>]) -> Result<bool, OutOfMemory> {
    let mut same = true;
    for (lines, line, reason) in rows {
        same = same && breaks(alloc, lines, *line, *reason)?;
    }
    Ok(same)
}

/// Lines, a word, a rest of a line, and lines.
type Parts<'a> = (&'a [u8], &'a [u8], &'a [u8], &'a [u8]);

/// The parts of a text, how often its word comes, and the first break.
type Repeated<'a> = (Parts<'a>, u64, (u32, u8));

/// Whether the text of each row has this first break.
fn all_repeat(alloc: Global, rows: &[Repeated<'_>]) -> Result<bool, OutOfMemory> {
    let mut same = true;
    for (parts, times, want) in rows {
        same = same && repeats(alloc, *parts, *times, *want)?;
    }
    Ok(same)
}

/// Adds so many times the word, a number from 0 on, and the rest of a line.
fn add_numbered(
    alloc: Global,
    text: &mut Bytes,
    word: &[u8],
    rest: &[u8],
    times: u64,
) -> Result<(), OutOfMemory> {
    for number in 0..times {
        text.append(word)?;
        print_number(alloc, text, number)?;
        text.append(rest)?;
    }
    Ok(())
}

/// Whether a text has this first break whose lines are these, then so many times this word, a number from 0 on, and this rest of
/// a line, and then these.
fn repeats(
    alloc: Global,
    lines: Parts<'_>,
    times: u64,
    want: (u32, u8),
) -> Result<bool, OutOfMemory> {
    let (first, word, rest, last) = lines;
    let mut text = text_of(alloc, &[b"rhc 1\n", first])?;
    add_numbered(alloc, &mut text, word, rest, times)?;
    text.append(last)?;
    Ok(first_break(alloc, text.as_slice()) == want)
}

/// Names that are given twice, that are unknown or come too late, and promises that have another putter.
const NAMES_AND_ORDER: &[Row<'static>] = &[
    (
        b"task b plain await p w\nlet y add p p\nput q y when w\ndrop p\nend",
        0,
        0,
    ),
    (b"promise p 1", 11, 10),
    (b"task a plain\nend", 11, 10),
    (b"promise b 1\ntask b plain\nend", 12, 10),
    (b"task b plain await p w p\nend", 11, 10),
    (b"task a plain await r\nend", 11, 10),
    (b"task b plain await p\nlet p count p\nend", 12, 10),
    (b"task b plain\nlet z lit 1\nlet z lit 1\nend", 13, 10),
    (b"task b plain await r\nend", 11, 11),
    (b"task b plain await a\nend", 11, 11),
    (b"task b plain await q r\nend", 11, 11),
    (b"task b plain\nlet z lit 1\nput r z\nend", 13, 11),
    (b"task b plain await p\nput q x\nend", 12, 11),
    (b"task b plain await p\nput q p when c\nend", 12, 11),
    (b"task b plain\nlet z sum z\nend", 12, 11),
    (b"task b plain await w q\nend", 11, 12),
    (
        b"task b plain await p\nput q p\nend\ntask e plain await q\nend",
        0,
        0,
    ),
    (b"task b plain await p\nput p p\nend", 12, 13),
    (b"task b plain await w\nput p w\nend", 12, 13),
    (b"task b plain await p\nput q p\nput q p\nend", 13, 13),
];

#[test]
fn names_and_order_are_judged(rt: HostRuntime) -> Result<(), Fail> {
    assert!(rt; are_judged(rt.alloc(), NAMES_AND_ORDER)?);
    Ok(())
}

/// Whether a task that awaits `p`, of three words, and `w`, of one, has this reason at its line, the only one, where it is no 0.
fn breaks_at(alloc: Global, line: &[u8], reason: u8) -> Result<bool, OutOfMemory> {
    let text = text_of(
        alloc,
        &[ABOVE, b"task b plain await p w\n", line, b"\nput q z\nend"],
    )?;
    let at = if reason == 0 { 0 } else { 12 };
    Ok(first_break(alloc, text.as_slice()) == (at, reason))
}

/// Lines of a task with the number of their reason, or with 0.
const STENCIL_LINES: &[(&[u8], u8)] = &[
    (b"let z stencil1 w p w 1 2", 0),
    (b"let z stencil1 p p p 1 2", 0),
    (b"let z stencil1 p p x 1 2", 11),
    (b"let z stencil2 p p w w p 3 1 2", 0),
    (b"let z stencil2 p p w w p 2 1 2", 14),
    (b"let z stencil2 p w w w p 3 1 2", 14),
    (b"let z stencil2 p p p w p 3 1 2", 14),
    (b"let z stencil2 p p p p p 3 1 2", 14),
    (b"let z stencil2 p p w w y 3 1 2", 11),
];

/// Whether the line of each row has this reason.
fn are_judged_in_a_task(alloc: Global, rows: &[(&[u8], u8)]) -> Result<bool, OutOfMemory> {
    let mut same = true;
    for (line, reason) in rows {
        same = same && breaks_at(alloc, line, *reason)?;
    }
    Ok(same)
}

/// Tasks whose put has the length of a stencil's middle, and checks of such.
const STENCIL_PUTS: &[Row<'static>] = &[
    (
        b"task b plain await p w\nlet z stencil1 p w p 1 2\nput q z\nend",
        13,
        14,
    ),
    (
        b"task b replay 2 await p w\nput q p\ncheck conserve q w p w 1 2\nend",
        0,
        0,
    ),
    (
        b"task b replay 2 await p w\nput q p\ncheck conserve q p w p 1 2\nend",
        13,
        14,
    ),
    (
        b"task b replay 2 await p w\nput q p\ncheck conserve2 q p p w w p 3 1 2\nend",
        0,
        0,
    ),
    (
        b"task b replay 2 await p w\nput q p\ncheck conserve2 q p p w w p 1 1 2\nend",
        13,
        14,
    ),
];

#[test]
fn stencils_fit_their_sides(rt: HostRuntime) -> Result<(), Fail> {
    assert!(rt; are_judged_in_a_task(rt.alloc(), STENCIL_LINES)?);
    assert!(rt; are_judged(rt.alloc(), STENCIL_PUTS)?);
    Ok(())
}

/// Lengths that do not fit, promises that are dropped, and lists that are too long.
const LENGTHS_AND_DROPS: &[Row<'static>] = &[
    (b"task b plain await p w\nlet z add p w\nend", 12, 14),
    (b"task b plain await p w\nlet z mul w p\nend", 12, 14),
    (b"task b plain await p\nlet z cut p 2 2\nend", 12, 14),
    (
        b"task b plain await p\nlet z cut p 18446744073709551615 1\nend",
        12,
        14,
    ),
    (b"task b plain await p\nlet z cut p 1 2\nend", 0, 0),
    (b"task b plain await w\nput q w\nend", 12, 14),
    (b"task b plain await p\nput q p when p\nend", 12, 14),
    (b"task b plain await p\ndrop w\nend", 12, 16),
    (b"task b plain await p\nlet z lit 1\ndrop z\nend", 13, 16),
    (b"task b plain await p\ndrop p\ndrop p\nend", 13, 16),
    (b"task b plain await p\ndrop p\nlet z sum p\nend", 13, 16),
    (
        b"task b plain await p w\ndrop w\nput q p when w\nend",
        13,
        16,
    ),
    (
        b"task b plain await p\nlet z gen 4096 0 9\nlet y join z p\nend",
        13,
        17,
    ),
    (
        b"task b plain await w\nlet z gen 4095 0 9\nlet y join z w\nend",
        0,
        0,
    ),
    (
        b"task b replay 2 await p\nput q p\ncheck conserve q p p p 1 1\nend",
        0,
        0,
    ),
];

#[test]
fn lengths_drops_and_forms_are_judged(rt: HostRuntime) -> Result<(), Fail> {
    assert!(rt; are_judged(rt.alloc(), LENGTHS_AND_DROPS)?);
    Ok(())
}

/// A matrix `m` of three rows of three columns, on the lines 11 to 15.
const MATRIX: &[u8] = b"matrix m 3 3\nrow 0:1 2:5\nrow 1:1\nrow 2:1\nend\n";

/// Whether these lines, below the matrix, have this first break.
fn breaks_below_matrix(
    alloc: Global,
    lines: &[u8],
    line: u32,
    reason: u8,
) -> Result<bool, OutOfMemory> {
    let text = text_of(alloc, &[ABOVE, MATRIX, lines])?;
    Ok(first_break(alloc, text.as_slice()) == (line, reason))
}

/// Matrices and what names them.
const MATRICES: &[Row<'static>] = &[
    (b"matrix a 1 1\nrow\nend", 11, 10),
    (b"matrix m 1 1\nrow\nend\ntask m plain\nend", 14, 10),
    (
        b"matrix m 1 1\nrow\nend\nfinish f\nmatrix m 1 1\nrow\nend\nend",
        15,
        10,
    ),
    (b"task b plain await p\nlet z product m p\nend", 12, 11),
    (b"task b plain await p\nlet z product p p\nend", 12, 11),
    (
        b"task b replay 2 await p\nput q p\ncheck product q m p\nend",
        13,
        11,
    ),
    (
        b"matrix m 1 2\nrow\nend\ntask b plain await p\nlet z product m p\nend",
        15,
        14,
    ),
    (
        b"matrix m 1 3\nrow\nend\ntask b plain await p\nlet z product m p\nput q z\nend",
        16,
        14,
    ),
    (
        b"matrix m 1 3\nrow\nend\ntask b replay 2 await p\nput q p\ncheck product q m p\nend",
        16,
        14,
    ),
    (
        b"matrix m 3 1\nrow\nrow\nrow\nend\ntask b replay 2 await p\nput q p\ncheck product q m p\nend",
        18,
        14,
    ),
];

#[test]
fn matrices_are_judged(rt: HostRuntime) -> Result<(), Fail> {
    assert!(rt; are_judged(rt.alloc(), MATRICES)?);
    Ok(())
}

/// Whether the lines of each row have this first break below the matrix.
fn are_judged_below_matrix(alloc: Global, rows: &[Row<'_>]) -> Result<bool, OutOfMemory> {
    let mut same = true;
    for (lines, line, reason) in rows {
        same = same && breaks_below_matrix(alloc, lines, *line, *reason)?;
    }
    Ok(same)
}

/// Tasks with correction below a matrix.
const CORRECTED: &[Row<'static>] = &[
    (
        b"task b abft await p\nlet z product m p\nput q z\ncheck range q 0 9\ncheck product q m p\nend",
        0,
        0,
    ),
    (
        b"finish f\ntask b abft await p\nput q p\ncheck product q m p\nend\nend",
        0,
        0,
    ),
    (
        b"task b abft await p\nput q p\ncheck product q m p\ncheck product q m p\nend",
        19,
        15,
    ),
    (
        b"task b replay 2 await p\nput q p\ncheck product q m p\ncheck product q m p\nend",
        0,
        0,
    ),
    (b"task b abft await p\nput q p\nend", 18, 15),
    (
        b"task b abft await p\nput q p\ncheck range q 0 9\nend",
        19,
        15,
    ),
    (
        b"task b plain await p\nput q p\ncheck product q m p\nend",
        18,
        15,
    ),
];

#[test]
fn corrected_tasks_have_one_check_of_a_product(rt: HostRuntime) -> Result<(), Fail> {
    assert!(rt; are_judged_below_matrix(rt.alloc(), CORRECTED)?);
    Ok(())
}

/// As many matrices as there may be, and one more.
const MATRIX_LIMITS: &[Repeated<'static>] = &[
    ((b"", b"matrix m", b" 1 1\nrow\nend\n", b""), 256, (0, 0)),
    ((b"", b"matrix m", b" 1 1\nrow\nend\n", b""), 257, (770, 17)),
];

#[test]
fn matrices_have_their_limit(rt: HostRuntime) -> Result<(), Fail> {
    assert!(rt; all_repeat(rt.alloc(), MATRIX_LIMITS)?);
    Ok(())
}

/// Whether there are two matrices, of one row and of two rows.
fn has_two_matrices(drafts: &Drafts) -> bool {
    let rows = &drafts.matrices;
    rows.rows_at(0) == 1 && rows.rows_at(1) == 2 && rows.rows_at(2) == 0
}

/// Whether a text of two matrices has them.
fn are_matrices_planned(alloc: Global) -> bool {
    let text =
        b"rhc 1\nmatrix l 1 1\nrow\nend\nfinish f\nmatrix m 2 9\nrow 0:1 8:2\nrow 7:3\nend\nend\n";
    match plan(alloc, text) {
        Ok(drafts) => has_two_matrices(&drafts),
        Err(_) => false,
    }
}

#[test]
fn matrices_have_their_rows(rt: HostRuntime) {
    assert!(rt; are_matrices_planned(rt.alloc()));
}

/// Scopes and groups.
const BLOCKS: &[Row<'static>] = &[
    (
        b"finish f\ntask b plain await p\nput q p\nend\nend\ntask c plain await f q\nend",
        0,
        0,
    ),
    (b"finish p\nend", 11, 10),
    (b"finish a\nend", 11, 10),
    (b"group a\nend", 11, 10),
    (b"finish f\nfinish f\nend\nend", 12, 10),
    (b"group g\ntask g plain\nend\nend", 12, 10),
    (b"finish f\npromise r 1\nend\npromise r 1", 14, 10),
    (b"group g await p p\nend", 11, 10),
    (b"group g await r\nend", 11, 11),
    (b"group g await w q\nend", 11, 12),
    (b"finish f\ntask b plain await f\nend\nend", 12, 12),
    (b"finish f\ngroup g await f\nend\nend", 12, 12),
    (b"finish f\nend\ntask b plain await f\nput q f\nend", 0, 0),
    (b"finish f\nend\ntask b plain await p\nput f p\nend", 14, 13),
    (b"finish f\ntask b plain await p\nput f p\nend\nend", 13, 13),
    (b"group g await p\ntask b plain\nput q p\nend\nend", 13, 11),
    (
        b"group g\nfinish f\ntask b plain await w\nend\nend\nend",
        0,
        0,
    ),
];

#[test]
fn blocks_are_judged(rt: HostRuntime) -> Result<(), Fail> {
    assert!(rt; are_judged(rt.alloc(), BLOCKS)?);
    Ok(())
}

/// Promises, tasks and words.
const LIMITS: &[Repeated<'static>] = &[
    ((b"", b"promise p", b" 1\n", b""), 16384, (0, 0)),
    ((b"", b"promise p", b" 1\n", b""), 16385, (16386, 17)),
    ((b"", b"task t", b" plain\nend\n", b""), 16385, (32770, 17)),
    ((b"", b"promise p", b" 4096\n", b""), 257, (258, 17)),
    ((b"", b"promise p", b" 4096 temp\n", b""), 4097, (4098, 17)),
];

#[test]
fn limits_are_judged(rt: HostRuntime) -> Result<(), Fail> {
    assert!(rt; all_repeat(rt.alloc(), LIMITS)?);
    Ok(())
}

const SCOPE: &[u8] = b"finish f\nend\n";

/// A scope counts as a promise at its first line, and as a node at its end. Its three words are not shown.
const BLOCK_LIMITS: &[Repeated<'static>] = &[
    ((b"", b"finish f", b"\nend\n", b""), 16385, (32770, 17)),
    ((b"", b"group g", b"\nend\n", b""), 16385, (32770, 17)),
    (
        (b"finish f\n", b"task t", b" plain\nend\n", b"end\n"),
        16383,
        (0, 0),
    ),
    (
        (b"finish f\n", b"task t", b" plain\nend\n", b"end\n"),
        16384,
        (32771, 17),
    ),
    (
        (b"", b"promise p", b" 4096 temp\n", SCOPE),
        4096,
        (4098, 17),
    ),
    ((b"", b"promise p", b" 4096\n", SCOPE), 256, (0, 0)),
];

#[test]
fn limits_of_blocks_are_judged(rt: HostRuntime) -> Result<(), Fail> {
    assert!(rt; all_repeat(rt.alloc(), BLOCK_LIMITS)?);
    Ok(())
}

/// Whether the node is a task that awaits this promise and puts this one.
fn is_task(node: &Node, awaits: &[u32], puts: &[u32], steps: usize) -> bool {
    node.kind == Kind::Task
        && node.awaits.as_slice() == awaits
        && node.puts.as_slice() == puts
        && node.body.steps().len() == steps
}

/// Whether the step puts local 2 into promise 1 on the condition of local 1.
fn is_put_on_condition(step: &Step) -> bool {
    matches!(
        step,
        Step::Put {
            promise: 1,
            local: 2,
            when: Some(1),
        }
    )
}

/// Whether the steps are those of the second task.
fn are_steps(steps: &[Step]) -> bool {
    let [add, put, release] = steps else {
        return false;
    };
    matches!(add, Step::Add { a: 0, b: 0 })
        && is_put_on_condition(put)
        && matches!(release, Step::DropAwait { promise: 0 })
}

/// Whether the drafts are those of two tasks and three promises.
fn are_two_tasks(drafts: &Drafts) -> bool {
    let [first, second] = drafts.nodes.as_slice() else {
        return false;
    };
    let [p, q, w] = drafts.promises.as_slice() else {
        return false;
    };
    is_task(first, &[], &[0, 2], 4)
        && is_task(second, &[0, 2], &[1], 3)
        && are_steps(second.body.steps())
        && (p.putter, p.len, p.temp) == (Some(0), 3, false)
        && (q.putter, q.len, q.temp) == (Some(1), 3, true)
        && (w.putter, w.len, w.temp) == (Some(0), 1, false)
}

const SECOND_TASK: &[u8] = b"task b plain await p w\nlet y add p p\nput q y when w\ndrop p\nend\n";

fn are_two_planned(alloc: Global) -> Result<bool, OutOfMemory> {
    let text = text_below(alloc, SECOND_TASK)?;
    Ok(match plan(alloc, text.as_slice()) {
        Ok(drafts) => are_two_tasks(&drafts),
        Err(_) => false,
    })
}

#[test]
fn two_tasks_have_these_drafts(rt: HostRuntime) -> Result<(), Fail> {
    assert!(rt; are_two_planned(rt.alloc())?);
    Ok(())
}

/// Schemes, and the checks that they may have.
const SCHEMES_AND_CHECKS: &[Row<'static>] = &[
    (b"task b replicate await p\nput q p\nend", 0, 0),
    (b"task b replay 1\nend", 0, 0),
    (b"task b replay 8\nend", 0, 0),
    (b"task b replay 0\nend", 11, 15),
    (b"task b replay 9\nend", 11, 15),
    (b"task a replay 9 await p\nend", 11, 10),
    (b"task b replay 9 await r\nend", 11, 11),
    (b"task b replay 9 await q\nend", 11, 12),
    (
        b"task b plain await p\nput q p\ncheck total q 6\nend",
        13,
        15,
    ),
    (
        b"task b replicate await p\nput q p\ncheck total q 6\nend",
        13,
        15,
    ),
    (
        b"task b plain await p\nput q p\ncheck total p 6\nend",
        13,
        11,
    ),
    (
        b"task b replay 2 await p\nput q p\ncheck range q 1 3\nend",
        0,
        0,
    ),
    (
        b"task b replay 2 await p\nput q p\ncheck range r 1 3\nend",
        13,
        11,
    ),
    (
        b"task b replay 2 await p\ncheck range q 1 3\nput q p\nend",
        12,
        11,
    ),
    (
        b"task b replay 2 await p\nput q p\ncheck linear q 0 w 1\nend",
        13,
        11,
    ),
    (
        b"task b replay 2 await p\nlet z sum p\nput q p\ncheck linear q 0 z 1\nend",
        14,
        11,
    ),
    (
        b"task b replay 2 await p\nput q p\ndrop p\ncheck linear q 0 p 1\nend",
        14,
        16,
    ),
    (
        b"task b replay 2 await p\nput q p\ncheck user q f\nend",
        0,
        0,
    ),
    (
        b"task b replay 2 await p\nput q p\ncheck user q h\nend",
        13,
        18,
    ),
    (
        b"task b plain await p\nput q p\ncheck user q h\nend",
        13,
        15,
    ),
];

#[test]
fn schemes_and_checks_are_judged(rt: HostRuntime) -> Result<(), Fail> {
    assert!(rt; are_judged(rt.alloc(), SCHEMES_AND_CHECKS)?);
    Ok(())
}

/// The terms 2 times await 1 and 7 times await 0, and behind them fourteen of factor 0.
fn are_terms(terms: &[Term; 16]) -> bool {
    (terms[0].input, terms[0].factor) == (1, 2)
        && (terms[1].input, terms[1].factor) == (0, 7)
        && terms[2..]
            .iter()
            .all(|term| term.input == 0 && term.factor == 0)
}

/// Whether the check reads promise 1 and has base 5 and the two terms.
fn is_linear(check: &PlannedCheck) -> bool {
    match &check.spec {
        Spec::Linear { base, terms, count } => {
            check.promise == 1 && *base == 5 && *count == 2 && are_terms(terms)
        }
        _ => false,
    }
}

/// Whether the check reads promise 1 and asks the handed-in check at this place, whose spec is kept.
fn is_user(check: &PlannedCheck, user: &Option<UserSpec>, want: u32, kept: UserSpec) -> bool {
    match check.spec {
        Spec::User { at } => check.promise == 1 && at == want && *user == Some(kept),
        _ => false,
    }
}

/// Whether the second task is replayed with a linear check and one that asks the first of two handed-in checks of a name.
fn has_checks(drafts: &Drafts) -> bool {
    let [_, node] = drafts.nodes.as_slice() else {
        return false;
    };
    let Scheme::Replay { limit: 3 } = node.scheme else {
        return false;
    };
    let ([linear, user], [none, some]) = (node.checks.as_slice(), node.checks.users()) else {
        return false;
    };
    is_linear(linear) && none.is_none() && is_user(user, some, 0, UserSpec::Total { sum: 6 })
}

const REPLAYED_TASK: &[u8] =
    b"task b replay 3 await p w\nput q p\ncheck linear q 5 w 2 p 7\ncheck user q f\nend\n";

fn is_replay_planned(alloc: Global) -> Result<bool, OutOfMemory> {
    let text = text_below(alloc, REPLAYED_TASK)?;
    Ok(match plan(alloc, text.as_slice()) {
        Ok(drafts) => has_checks(&drafts),
        Err(_) => false,
    })
}

#[test]
fn a_replayed_task_has_these_checks(rt: HostRuntime) -> Result<(), Fail> {
    assert!(rt; is_replay_planned(rt.alloc())?);
    Ok(())
}
