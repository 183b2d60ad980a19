//! Lines and texts with the reason that they are refused for, by the rules of the language, and one printed text.

use rh_task_text::{Text, print_program, read_program};
use rh_words::{Bytes, Fault, OutOfMemory, print_labelled};
use std::alloc::Global;
use std::test::Fail;

/// The line and the number of the reason of the first bad line, or 0 and 0 where the text is read.
fn first_bad(alloc: Global, text: &[u8]) -> (u32, u8) {
    if text.len() > 1000000 {
        return (99, 99);
    }
    match read_program(alloc, text) {
        Ok(_) => (0, 0),
        Err(Fault::OutOfMemory) => (99, 98),
        Err(Fault::Refused(refusal)) => (refusal.line, refusal.reason.number()),
    }
}

/// The parts, one behind another.
fn text_of(alloc: Global, parts: &[&[u8]]) -> Result<Bytes, OutOfMemory> {
    let mut text = Bytes::new(alloc);
    for part in parts {
        text.append(part)?;
    }
    Ok(text)
}

/// Whether the line, below line 1 and one more line, has this reason, or 0 where it is good: then the text is read, or a block is open at
/// its end.
fn has_reason(alloc: Global, above: &[u8], line: &[u8], reason: u8) -> Result<bool, OutOfMemory> {
    let text = text_of(alloc, &[b"rhc 1\n", above, b"\n", line])?;
    let (at, told) = first_bad(alloc, text.as_slice());
    Ok(match reason {
        0 => at == 0 || at == 4 && told == 7,
        _ => at == 3 && told == reason,
    })
}

/// Whether each row, a digit and a space before its line, is a line that has this reason.
fn have_reasons(alloc: Global, above: &[u8], rows: &[u8]) -> Result<bool, OutOfMemory> {
    let mut all = true;
    for row in rows.split(|byte| *byte == b'\n') {
        let [digit, _, line @ ..] = row else {
            return Ok(false);
        };
        all = all && has_reason(alloc, above, line, digit.wrapping_sub(b'0'))?;
    }
    Ok(all)
}

/// Whether the text of a head, a piece so many times and a tail has this first bad line and reason.
fn is_refused(
    alloc: Global,
    head: &[u8],
    piece: &[u8],
    times: u32,
    tail: &[u8],
    want: (u32, u8),
) -> Result<bool, OutOfMemory> {
    let mut text = Bytes::new(alloc);
    text.append(head)?;
    for _ in 0..times {
        text.append(piece)?;
    }
    text.append(tail)?;
    Ok(first_bad(alloc, text.as_slice()) == want)
}

/// A head, a piece so many times, a tail, and the first bad line and its reason.
type Row<'a> = (&'a [u8], &'a [u8], u32, &'a [u8], (u32, u8));

/// Whether the text of each row has its first bad line and reason.
fn are_refused(alloc: Global, rows: &[Row<'_>]) -> Result<bool, OutOfMemory> {
    let mut all = true;
    for (head, piece, times, tail, want) in rows {
        all = all && is_refused(alloc, head, piece, *times, tail, *want)?;
    }
    Ok(all)
}

/// Lines behind the digits of their reasons, or behind 0.
const OUTSIDE_OF_TASKS: &[u8] = b"\
0 promise p 1\n\
0 promise p 0x1000 temp\n\
0 matrix m 1 4096\n\
0 task t plain\n\
0 task t plain await a b\n\
0 task t replicate await a\n\
0 task t replay 3\n\
0 task t abft\n\
0 finish f\n\
0 group g\n\
0 group g await a\n\
0 \n\
0   # a comment\n\
1 # \x7f\n\
1 finish\tf\n\
1 bogus \x80\n\
3 bogus\n\
3 Promise p 1\n\
3 task 9 foo\n\
3 let x add 9 b\n\
3 row 0:1\n\
3 check range 9 x\n\
4 finish 9\n\
4 task 9\n\
4 promise 9 x\n\
4 task t plain await a 9\n\
4 task t plain foo 9\n\
5 promise p x\n\
5 promise p 1_000 temp\n\
5 promise p 0x 9 9\n\
5 task t replay x\n\
6 promise p\n\
6 promise p 0 tmp\n\
6 task t replicate 2\n\
6 task t plain await\n\
6 task t\n\
6 end x\n\
8 end\n\
9 promise p 0\n\
9 matrix m 1 4097\n\
9 task t plain await a a a a a a a a a a a a a a a a a";

#[test]
fn lines_outside_of_tasks_are_judged(rt: HostRuntime) -> Result<(), Fail> {
    assert!(rt; have_reasons(rt.alloc(), b"#", OUTSIDE_OF_TASKS)?);
    Ok(())
}

/// The same of lines in a task.
const IN_TASKS: &[u8] = b"\
0 let x lit 1 0x2\n\
0 let x lit 9999999999999999999 18446744073709551615\n\
5 let x lit 18446744073709551616\n\
5 let x lit 000000000000000000001\n\
1 let x lit 1234567890123456\x7f789\n\
0 let abcdefghijklmnopqrstuvwxyz_01234 lit 1\n\
4 let abcdefghijklmnopqrstuvwxyz_012345 lit 1\n\
3 let x sums a\n\
3 check rang p 0 9\n\
1 check total p 9 9 \x01\n\
4 drop 9 9\n\
0 let x gen 4096 0 1\n\
0 let x add a b\n\
0 let x sub a b\n\
0 let x mul a b\n\
0 let x scale a 2\n\
0 let x shift a 63\n\
0 let x cut a 0 1\n\
0 let x join a b c\n\
0 let x sum a\n\
0 let x count a\n\
0 let x stencil1 l m r 1 2\n\
0 let x stencil2 n s w e m 3 1 2\n\
0 let x product a v\n\
0 put p x\n\
0 put p x when y\n\
0 drop q\n\
0 check range p 0 9\n\
0 check total p 1\n\
0 check linear p 0 q 1 r 2\n\
0 check conserve p l m r 1 2\n\
0 check conserve2 p n s w e m 3 1 2\n\
0 check product p a q\n\
0 check user p mine\n\
0 end\n\
3 promise p 1\n\
3 let x dense a b 1 1 1\n\
6 let\n\
6 check\n\
6 let x\n\
6 let x lit\n\
5 let x lit x\n\
5 let x gen 0 x 0\n\
9 let x gen 1 1 0\n\
4 let 9 shift a 64\n\
6 let x shift a 64 9\n\
9 let x shift a 64\n\
9 let x cut a 0 0\n\
9 let x stencil2 n s w e m 0 1 2\n\
4 put p x foo 9\n\
6 put p x foo y\n\
6 put p x when\n\
6 drop q r\n\
6 check linear p 0 q\n\
4 check linear p 0 q 1 9 x\n\
4 check linear p 0 q 1 abcdefghijklmnopqrstuvwxyz_012345 1\n\
5 check linear p 0 q 1 r x\n\
9 check conserve p l m r 1 64";

#[test]
fn lines_of_tasks_are_judged(rt: HostRuntime) -> Result<(), Fail> {
    assert!(rt; have_reasons(rt.alloc(), b"task t plain", IN_TASKS)?);
    Ok(())
}

/// The same of lines in a matrix.
const IN_MATRICES: &[u8] = b"\
0 row\n\
0 row 0:1 2:1048575\n\
6 end\n\
3 promise p 1\n\
5 row 0:1 x\n\
5 row 0:1:2 0:1\n\
5 row 0:\n\
9 row 0:1 0:2\n\
9 row 3:1\n\
9 row 2:1 1:1\n\
9 row 0:1048576\n\
1 row\t";

#[test]
fn lines_of_matrices_are_judged(rt: HostRuntime) -> Result<(), Fail> {
    assert!(rt; have_reasons(rt.alloc(), b"matrix m 1 3", IN_MATRICES)?);
    Ok(())
}

/// The lines above those of a task, and of a matrix.
const TASK: &[u8] = b"rhc 1\ntask t plain\n";

const MATRIX: &[u8] = b"rhc 1\nmatrix m 2 1\n";

const HEADERS_AND_BLOCKS: &[Row<'static>] = &[
    (b"", b"", 0, b"", (1, 2)),
    (b"rhc 2\n", b"", 0, b"", (1, 2)),
    (b"# rhc 1\n", b"", 0, b"", (1, 2)),
    (b"rhc 1\r\n", b"", 0, b"", (1, 1)),
    (b" rhc  1 ", b"", 0, b"", (0, 0)),
    (TASK, b"", 0, b"", (3, 7)),
    (TASK, b"", 0, b"end\nend\n", (4, 8)),
    (b"rhc 1\n", b"finish f\n", 8, b"task t abft\nend", (12, 7)),
];

#[test]
fn headers_and_blocks_are_judged(rt: HostRuntime) -> Result<(), Fail> {
    assert!(rt; are_refused(rt.alloc(), HEADERS_AND_BLOCKS)?);
    Ok(())
}

const COUNTS_OF_LINES: &[Row<'static>] = &[
    (b"rhc 1\n", b"group g\n", 9, b"", (10, 9)),
    (MATRIX, b"row 0:1\n", 3, b"end", (5, 6)),
    (MATRIX, b"row 0:1\n", 1, b"end", (4, 6)),
    (MATRIX, b"row 0:1\n", 2, b"end", (0, 0)),
    (MATRIX, b"row 0:1\n", 2, b"", (5, 7)),
    (MATRIX, b"row 0:1\n", 2, b"end\nend", (6, 8)),
    (TASK, b"let x sum a\n", 32, b"end", (0, 0)),
    (TASK, b"let x sum a\n", 33, b"end", (35, 9)),
    (TASK, b"check user p q\n", 17, b"end", (19, 9)),
];

#[test]
fn counts_of_lines_are_judged(rt: HostRuntime) -> Result<(), Fail> {
    assert!(rt; are_refused(rt.alloc(), COUNTS_OF_LINES)?);
    Ok(())
}

/// A task up to the words of a `lit`, the parts of a `join` and the terms of a check, a task up to its awaits, and a matrix up to the
/// entries of a row.
const LITERAL: &[u8] = b"rhc 1\ntask t plain\nlet x lit";

const JOIN: &[u8] = b"rhc 1\ntask t plain\nlet x join";

const TERMS: &[u8] = b"rhc 1\ntask t plain\ncheck linear p 0";

const AWAIT: &[u8] = b"rhc 1\ntask t plain await";

const ROW: &[u8] = b"rhc 1\nmatrix m 1 4096\nrow";

const LONG_LINES: &[Row<'static>] = &[
    (LITERAL, b" 1", 4096, b"\nend", (0, 0)),
    (LITERAL, b" 1", 4097, b"\nend", (3, 9)),
    (LITERAL, b" 1", 5000, b" x\nend", (3, 5)),
    (ROW, b" 0:1", 5000, b" 9\nend", (3, 5)),
    (JOIN, b" a", 16, b"\nend", (0, 0)),
    (JOIN, b" a", 17, b"\nend", (3, 9)),
    (TERMS, b" a 1", 16, b"\nend", (0, 0)),
    (TERMS, b" a 1", 17, b"\nend", (3, 9)),
    (AWAIT, b" p", 16, b"\nend", (0, 0)),
    (AWAIT, b" p", 17, b"\nend", (2, 9)),
];

#[test]
fn long_lines_are_judged(rt: HostRuntime) -> Result<(), Fail> {
    assert!(rt; are_refused(rt.alloc(), LONG_LINES)?);
    Ok(())
}

/// The first bad line of a matrix of one row with this many cells, and its reason.
fn row_of(alloc: Global, cells: u64) -> Result<(u32, u8), OutOfMemory> {
    let mut text = text_of(alloc, &[ROW])?;
    for column in 0..cells {
        print_labelled(alloc, b" ", column, &mut text)?;
        text.append(b":1")?;
    }
    text.append(b"\nend")?;
    Ok(first_bad(alloc, text.as_slice()))
}

#[test]
fn cells_of_a_row_are_counted(rt: HostRuntime) -> Result<(), Fail> {
    let alloc = rt.alloc();
    assert!(rt; row_of(alloc, 2048)? == (0, 0));
    assert!(rt; row_of(alloc, 2049)? == (3, 9));
    Ok(())
}

/// Whether the text is printed as this.
fn prints(alloc: Global, read: &Text, want: &[u8]) -> bool {
    let mut printed = Bytes::new(alloc);
    print_program(alloc, read, &mut printed).is_ok() && printed.as_slice() == want
}

/// Whether the text is read, with so many statements, and printed as this.
fn is_printed(alloc: Global, text: &[u8], items: usize, want: &[u8]) -> Option<bool> {
    if text.len() > 1000000 {
        return None;
    }
    let read = read_program(alloc, text).ok()?;
    Some(read.version() == 1 && read.items().len() == items && prints(alloc, &read, want))
}

/// A text of each block, and how it is printed.
const PRINTED: [&[u8]; 2] = [
    b"rhc 1\npromise  x 0x10 temp\n\n# no\nmatrix m 1 9\n row 0:1 08:2\nend\ngroup g await x\ntask t replay 3 await x y\nlet v lit 1 2\nlet w join v v\nput x v when v\ncheck linear x 1 x 2\nend\nend",
    b"rhc 1\npromise x 16 temp\nmatrix m 1 9\nrow 0:1 8:2\nend\ngroup g await x\ntask t replay 3 await x y\nlet v lit 1 2\nlet w join v v\nput x v when v\ncheck linear x 1 x 2\nend\nend\n",
];

#[test]
fn texts_are_printed(rt: HostRuntime) {
    let [text, want] = PRINTED;
    assert!(rt; is_printed(rt.alloc(), text, 12, want) == Some(true));
}
