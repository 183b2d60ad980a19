//! Real files.

ghost use Rattle.std.specs.Prelude.{◌≡◌, ◌≢◌, ◌≤◌, ◌<◌, [], length, IfSome};
ghost use Rattle.std.specs.Io.KnownBytes.{Appends};
ghost use Rattle.rh_outside.specs.Counts.{no_failures};
ghost use Rattle.rh_outside.specs.MemoryStores.{failed_reads_after, failed_writes_after};
ghost use Rattle.rh_outside.specs.States.{KeepsCounts, untold};
ghost use Rattle.rh_outside.specs.Shelves.{Reads, Writes};

use crate::count::Count;
use crate::shelf::{ReadAnswer, Shelf};
use crate::sink::WriteAnswer;
use rh_words::Bytes;
use std::fs;
use std::io::{Read, Write};
use std::marker::Model;
use std::rt::Files;

/// The files of the system. No contract tells what they hold.
#[derive(Drop)]
pub struct FsShelf<'a, R: Files> {
    rt: &'a R,
    failed_reads: Count,
    failed_writes: Count,
}

impl<'a, R: Files> Model for FsShelf<'a, R> {
    ghost use Rattle.rh_outside.specs.Counts.{FailureCounts};

    ghost Value = { FailureCounts };

    ghost view = { λ s. record { failed_reads = s.failed_reads; failed_writes = s.failed_writes } };
}

impl<'a, R: Files> FsShelf<'a, R> {
    /// The files that the runtime reaches, of which no call failed yet.
    pub fn new(rt: &'a R) -> FsShelf<'a, R>
        ensures { result ≡ no_failures }
    {
        FsShelf {
            rt,
            failed_reads: Count::new(),
            failed_writes: Count::new(),
        }
    }
}

impl<'a, R: Files> Shelf for FsShelf<'a, R> {
    ghost state = { untold };

    fn read(&mut self, name: &str, limit: usize, into: &mut Bytes) -> ReadAnswer
        ensures counted { self.new.failed_reads ≡ failed_reads_after self.old.failed_reads result }
        ensures writes { self.new.failed_writes ≡ self.old.failed_writes }
        ensures counts { KeepsCounts (untold self.old) (untold self.new) }
        ensures answer { Reads (untold self.old) (untold self.new) name.now limit into.new result }
    {
        let answer = read_named(self.rt, name, limit, into);
        count_read(&mut self.failed_reads, answer);
        answer
    }

    fn write(&mut self, name: &str, bytes: &[u8]) -> WriteAnswer
        ensures counted { self.new.failed_writes ≡ failed_writes_after self.old.failed_writes result }
        ensures reads { self.new.failed_reads ≡ self.old.failed_reads }
        ensures counts { KeepsCounts (untold self.old) (untold self.new) }
        ensures answer { Writes (untold self.old) (untold self.new) name.now bytes.now result }
    {
        let answer = match fs::create(self.rt, name) {
            Ok(mut file) => write_file(&mut file, bytes),
            Err(_) => WriteAnswer::Failed,
        };
        if answer == WriteAnswer::Failed {
            self.failed_writes.rise();
        }
        answer
    }
}

/// Counts a read that failed.
fn count_read(failed: &mut Count, answer: ReadAnswer)
    ensures counted { failed.new ≡ failed_reads_after failed.old answer }
    ensures later { failed.old ≤ failed.new }
{
    if answer == ReadAnswer::Failed {
        failed.rise();
    }
}

/// Reads all of the file of this name, where it has at most `limit` bytes. The buffer is empty where that fails.
fn read_named<R: Files>(rt: &R, name: &str, limit: usize, into: &mut Bytes) -> ReadAnswer
    ensures within { result ≡ ReadAnswer.Ok → length into.new ≤ limit }
    ensures empty { result ≢ ReadAnswer.Ok → into.new ≡ [] }
{
    into.clear();
    let answer = match fs::open(rt, name) {
        Ok(mut file) => read_file(&mut file, limit, into),
        Err(_) => ReadAnswer::Failed,
    };
    if answer != ReadAnswer::Ok {
        into.clear();
    }
    answer
}

/// Writes all the bytes to a file that was just made empty.
fn write_file<F: Write>(file: &mut F, bytes: &[u8]) -> WriteAnswer
    ensures { result ≡ WriteAnswer.Ok → Appends (F.contents file.old) (F.contents file.new) bytes.now }
{
    match file.write_all(bytes) {
        Ok(()) => WriteAnswer::Ok,
        Err(_) => WriteAnswer::Failed,
    }
}

/// Reads all of a file into an empty buffer, where it has at most `limit` bytes. Each turn takes a byte at least, or is
/// the last; a byte beyond the limit tells that there are too many.
fn read_file<F: Read>(file: &mut F, limit: usize, into: &mut Bytes) -> ReadAnswer
    requires { into.old ≡ [] }
    ensures ok { result ≡ ReadAnswer.Ok → IfSome (F.remaining file.old) (λ bytes. into.new ≡ bytes) }
    ensures too_long { result ≡ ReadAnswer.TooLong
        → IfSome (F.remaining file.old) (λ bytes. limit < length bytes) }
    ensures within { result ≡ ReadAnswer.Ok → length into.new ≤ limit }
{
    let mut piece = [0u8; 4096];
    let mut left = limit;
    loop {
        let most = left.saturating_add(1).min(piece.len());
        match file.read(&mut piece[..most]) {
            Err(_) => return ReadAnswer::Failed,
            Ok(0) => return ReadAnswer::Ok,
            Ok(count) if count > left => return ReadAnswer::TooLong,
            Ok(count) => {
                if into.append(&piece[..count]).is_err() {
                    return ReadAnswer::OutOfMemory;
                }
                left -= count;
            }
        }
    }
}
