//! Values worked by hand, a generic caller, and real files.

ghost use Rattle.std.specs.Prelude.{◌≡◌, Some};
ghost use Rattle.rh_outside.specs.Counts.{Rose};
ghost use Rattle.rh_outside.specs.Shelves.{KeepsOthers};

use rh_outside::{
    FsShelf, MemShelf, MemSink, NeverFails, ReadAnswer, Shelf, Sink, StdSink, TookAnswer,
    WriteAnswer, write_all,
};
use rh_words::{Bytes, OutOfMemory};
use std::alloc::Global;
use std::fs;
use std::rt::Files;
use std::test::Fail;

/// A read: the file's name, the limit, the answer, and the bytes that were read.
type ReadRow = (&'static str, usize, ReadAnswer, &'static str);

/// Whether the reads answer as the rows say, one after another.
fn reads<S: Shelf>(store: &mut S, into: &mut Bytes, rows: &[ReadRow]) -> bool {
    for (name, limit, answer, bytes) in rows {
        if store.read(name, *limit, into) != *answer || into.as_slice() != bytes.as_bytes() {
            return false;
        }
    }
    true
}

/// A store with the files `p` and `q`, of which the third call fails.
fn two_files(alloc: Global) -> Result<MemShelf, OutOfMemory> {
    let mut store = MemShelf::new(alloc, 0)?;
    hold_two_files(&mut store)?;
    store.fail_call(2)?;
    Ok(store)
}

/// Puts the files into the store; the first is written over.
fn hold_two_files(store: &mut MemShelf) -> Result<(), OutOfMemory> {
    store.hold("p", b"old")?;
    store.hold("q", b"")?;
    store.hold("p", b"rhr 1")
}

/// The store of two files reads them, within their limits, but for its third call.
const TWO_FILES: &[ReadRow] = &[
    ("p", 5, ReadAnswer::Ok, "rhr 1"),
    ("p", 4, ReadAnswer::TooLong, ""),
    ("p", 5, ReadAnswer::Failed, ""),
    ("r", 5, ReadAnswer::Failed, ""),
    ("q", 0, ReadAnswer::Ok, ""),
    ("p", 6, ReadAnswer::Ok, "rhr 1"),
];

/// Whether such a store is read so.
fn reads_two_files(alloc: Global) -> Result<bool, OutOfMemory> {
    let mut store = two_files(alloc)?;
    let mut into = Bytes::new(alloc);
    Ok(reads(&mut store, &mut into, TWO_FILES))
}

#[test]
fn reads_a_store_in_memory(rt: HostRuntime) -> Result<(), Fail> {
    assert!(rt; reads_two_files(rt.alloc())?);
    Ok(())
}

/// Two writes to a store with a file `j`: the room, the number of the call that fails, what the first answers, the file
/// after it, and what the second answers.
type WriteRow = (usize, u32, WriteAnswer, &'static str, WriteAnswer);

/// Whether the writes to the store answer as the row says.
fn writes(store: &mut MemShelf, row: WriteRow) -> bool {
    let (_, _, first, left, second) = row;
    store.write("j", b"rhj 1\n") == first
        && store.file("j").unwrap_or(&[]) == left.as_bytes()
        && store.file("k").is_none()
        && store.write("k", b"") == second
}

/// The store of a row.
fn store_of(alloc: Global, row: WriteRow) -> Result<MemShelf, OutOfMemory> {
    let (room, failing, _, _, _) = row;
    let mut store = MemShelf::new(alloc, room)?;
    store.hold("j", b"old")?;
    store.fail_call(failing)?;
    Ok(store)
}

const WRITES: &[WriteRow] = &[
    (8, 9, WriteAnswer::Ok, "rhj 1\n", WriteAnswer::Failed),
    (10, 9, WriteAnswer::Ok, "rhj 1\n", WriteAnswer::Ok),
    (7, 9, WriteAnswer::Failed, "old", WriteAnswer::Ok),
    (8, 0, WriteAnswer::Failed, "old", WriteAnswer::Ok),
];

/// Whether the writes to the store of each row answer as it says.
fn all_write(alloc: Global, rows: &[WriteRow]) -> Result<bool, OutOfMemory> {
    let mut same = true;
    for row in rows {
        let mut store = store_of(alloc, *row)?;
        same = same && writes(&mut store, *row);
    }
    Ok(same)
}

#[test]
fn writes_to_a_store_in_memory(rt: HostRuntime) -> Result<(), Fail> {
    assert!(rt; all_write(rt.alloc(), WRITES)?);
    Ok(())
}

/// Whether a whole write answers this, and leaves the output with these bytes.
fn fills(out: &mut MemSink, bytes: &[u8], answer: WriteAnswer, taken: &[u8]) -> bool {
    write_all(out, bytes) == answer && out.taken() == taken
}

/// Whether an output with room for 10 bytes takes 10, and then none.
fn fills_up(out: &mut MemSink) -> bool {
    fills(
        out,
        b"rhr 1\ntotal tasks",
        WriteAnswer::Failed,
        b"rhr 1\ntota",
    ) && out.write(b"x") == TookAnswer::Failed
        && out.write(b"") == TookAnswer::Ok(0)
}

/// Whether such an output fills up.
fn takes_ten(alloc: Global) -> Result<bool, OutOfMemory> {
    let mut out = MemSink::new(alloc, 10)?;
    Ok(fills_up(&mut out))
}

#[test]
fn an_output_takes_what_it_has_room_for(rt: HostRuntime) -> Result<(), Fail> {
    assert!(rt; takes_ten(rt.alloc())?);
    Ok(())
}

/// Whether, of three writes, the second fails.
fn second_write_fails(out: &mut MemSink) -> bool {
    fills(out, b"rhr 1\n", WriteAnswer::Ok, b"rhr 1\n")
        && fills(out, b"total tasks", WriteAnswer::Failed, b"rhr 1\n")
        && fills(out, b"total tasks", WriteAnswer::Ok, b"rhr 1\ntotal tasks")
}

/// Whether an output fails at the write that was chosen.
fn fails_at_the_second(alloc: Global) -> Result<bool, OutOfMemory> {
    let mut out = MemSink::new(alloc, 17)?;
    out.fail_call(1)?;
    Ok(second_write_fails(&mut out))
}

#[test]
fn a_chosen_write_to_an_output_fails(rt: HostRuntime) -> Result<(), Fail> {
    assert!(rt; fails_at_the_second(rt.alloc())?);
    Ok(())
}

/// A store that never fails, with the file `p`, and with a file `q` that was written over.
fn given_up(alloc: Global) -> Result<NeverFails, OutOfMemory> {
    let mut store = NeverFails::new(alloc);
    store.hold("p", b"rhr 1")?;
    store.hold("q", b"rhf 1")?;
    let _ = Shelf::write(&mut store, "q", b"more");
    Ok(store)
}

/// What is left of the store is read, and a name that is not there as an empty file.
const LEFT: &[ReadRow] = &[
    ("p", 4, ReadAnswer::TooLong, ""),
    ("p", 5, ReadAnswer::Ok, "rhr 1"),
    ("q", 0, ReadAnswer::Ok, ""),
    ("r", 0, ReadAnswer::Ok, ""),
];

/// Whether the store is read so, and all is written.
fn never_fails(store: &mut NeverFails, into: &mut Bytes) -> bool {
    reads(store, into, LEFT) && write_all(store, b"rhr 1\n") == WriteAnswer::Ok
}

/// Whether such a store never fails.
fn never_fails_in_memory(alloc: Global) -> Result<bool, OutOfMemory> {
    let mut store = given_up(alloc)?;
    let mut into = Bytes::new(alloc);
    Ok(never_fails(&mut store, &mut into))
}

#[test]
fn nothing_fails_where_nothing_can(rt: HostRuntime) -> Result<(), Fail> {
    assert!(rt; never_fails_in_memory(rt.alloc())?);
    Ok(())
}

/// Copies a file, of any store. It changes no other file, and a write that failed is counted.
fn copy_file<S: Shelf>(store: &mut S, from: &str, to: &str, into: &mut Bytes) -> Option<WriteAnswer>
    ensures others { KeepsOthers (S.state store.old) (S.state store.new) to.now }
    ensures failed { result ≡ Some WriteAnswer.Failed
        → Rose ((S.state store.old).failed_writes to.now) ((S.state store.new).failed_writes to.now) }
{
    match store.read(from, 100, into) {
        ReadAnswer::Ok => Some(store.write(to, into.as_slice())),
        _ => None,
    }
}

/// Whether a store with room for 7 bytes and a file `p` copies it once, and no file that is not there.
fn copies(store: &mut MemShelf, into: &mut Bytes) -> bool {
    copy_file(store, "p", "q", into) == Some(WriteAnswer::Ok)
        && copy_file(store, "p", "r", into) == Some(WriteAnswer::Failed)
        && copy_file(store, "s", "r", into).is_none()
        && store.file("q").unwrap_or(&[]) == b"rhr 1".as_slice()
}

/// Whether such a store copies its file.
fn copies_in_memory(alloc: Global) -> Result<bool, OutOfMemory> {
    let mut store = MemShelf::new(alloc, 7)?;
    store.hold("p", b"rhr 1")?;
    let mut into = Bytes::new(alloc);
    Ok(copies(&mut store, &mut into))
}

#[test]
fn copies_a_file_of_any_store(rt: HostRuntime) -> Result<(), Fail> {
    assert!(rt; copies_in_memory(rt.alloc())?);
    Ok(())
}

/// The name of the file that the tests make.
const NAME: &str = "rh_outside.test";

/// The name of another.
const OTHER: &str = "rh_outside.other";

/// Whether a file of 10,000 bytes is made, so that it takes several reads.
fn makes_file<R: Files>(rt: &R) -> bool {
    let Ok(file) = fs::create(rt, NAME) else {
        return false;
    };
    let mut out = StdSink::new(file);
    (0..1000).all(|_| write_all(&mut out, b"0123456789") == WriteAnswer::Ok)
}

/// Whether the two files are removed.
fn removes_files<R: Files>(rt: &R) -> bool {
    fs::remove_file(rt, NAME).is_ok() && fs::remove_file(rt, OTHER).is_ok()
}

/// Whether a read of so many bytes at the most answers this, with a file of that length.
fn reads_length<S: Shelf>(
    store: &mut S,
    into: &mut Bytes,
    limit: usize,
    answer: ReadAnswer,
    len: usize,
) -> bool {
    store.read(NAME, limit, into) == answer && into.as_slice().len() == len
}

/// Whether a file of 10,000 bytes is read whole or not at all.
fn reads_whole<S: Shelf>(store: &mut S, into: &mut Bytes) -> bool {
    reads_length(store, into, 10_000, ReadAnswer::Ok, 10_000)
        && reads_length(store, into, 9_999, ReadAnswer::TooLong, 0)
        && reads_length(store, into, usize::MAX, ReadAnswer::Ok, 10_000)
}

/// Whether another file is written, and the first is as it was.
fn writes_another<S: Shelf>(store: &mut S, into: &mut Bytes) -> bool {
    store.write(OTHER, b"another\n") == WriteAnswer::Ok
        && reads_length(store, into, 10_000, ReadAnswer::Ok, 10_000)
}

/// Whether a file is written over, the other is as it was, and a file in no folder is not written.
fn writes_over<S: Shelf>(store: &mut S, into: &mut Bytes) -> bool {
    store.write(NAME, b"rhr 1\n") == WriteAnswer::Ok
        && reads(
            store,
            into,
            &[
                (NAME, 6, ReadAnswer::Ok, "rhr 1\n"),
                (OTHER, 8, ReadAnswer::Ok, "another\n"),
            ],
        )
        && store.write("no such folder/file", b"") == WriteAnswer::Failed
}

/// Whether a store of real files reads and writes the file that was made.
fn reaches<S: Shelf>(alloc: Global, store: &mut S) -> bool {
    let mut into = Bytes::new(alloc);
    reads_whole(store, &mut into)
        && writes_another(store, &mut into)
        && writes_over(store, &mut into)
}

/// Whether the file is gone for the store.
fn misses<S: Shelf>(alloc: Global, store: &mut S) -> bool {
    let mut into = Bytes::new(alloc);
    reads(store, &mut into, &[(NAME, 6, ReadAnswer::Failed, "")])
}

/// Whether real files are read and written, and missed once they are gone.
fn reaches_files<R: Files>(rt: &R, alloc: Global) -> bool {
    let mut store = FsShelf::new(rt);
    makes_file(rt) && reaches(alloc, &mut store) && removes_files(rt) && misses(alloc, &mut store)
}

#[test]
fn reaches_real_files(rt: HostRuntime) {
    assert!(rt; reaches_files(&rt, rt.alloc()));
}
