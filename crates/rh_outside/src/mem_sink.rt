//! An output in memory.

ghost use Rattle.std.specs.Prelude.{◌≡◌, ◌≤◌, ◌<◌, IfOk, OnOk, OnErr};
ghost use Rattle.rh_outside.specs.Counts.{with_failing};
ghost use Rattle.rh_outside.specs.MemoryOutputs.{new_output, took_answer, after_took};

use crate::count::Count;
use crate::failing_calls::FailingCalls;
use crate::sink::{Sink, TookAnswer};
use rh_words::OutOfMemory;
use std::alloc::Global;
use std::marker::Model;

/// An output in memory, of which chosen writes fail. Its writes take no memory: they fill the room that `new` reserved.
#[derive(Drop)]
pub struct MemSink {
    taken: Vec<u8>,
    room: usize,
    calls: FailingCalls,
    failed_writes: Count,
}

impl Model for MemSink {
    ghost use Rattle.std.specs.Prelude.{◌≤◌, ◌+◌, vec_len, vec_capacity};
    ghost use Rattle.rh_outside.specs.MemoryOutputs.{Output};

    ghost Value = { Output };

    ghost view = { λ s. record {
      taken = s.taken.items;
      room = s.room;
      calls = s.calls;
      failed_writes = s.failed_writes;
    } };

    ghost invariant = { λ s. vec_len s.taken + s.room ≤ vec_capacity s.taken };
}

impl MemSink {
    /// An output with room for so many bytes.
    pub fn new(alloc: Global, room: usize) -> Result<MemSink, OutOfMemory>
        ensures { IfOk result (λ out. out ≡ new_output room) }
    {
        Ok(MemSink {
            taken: Vec::with_capacity(alloc, room)?,
            room,
            calls: FailingCalls::new(alloc),
            failed_writes: Count::new(),
        })
    }

    /// Lets the write of this number fail. They are numbered from 0.
    pub fn fail_call(&mut self, call: u32) -> Result<(), OutOfMemory>
        ensures ok { OnOk result
            (self.new ≡ record self.old { calls = with_failing self.old.calls call }) }
        ensures err { OnErr result (self.new ≡ self.old) }
    {
        self.calls.fail_call(call)
    }

    /// The bytes that were taken.
    pub fn taken(&self) -> &[u8]
        ensures { result.now ≡ self.now.taken }
    {
        self.taken.as_slice()
    }
}

impl Sink for MemSink {
    ghost use Rattle.std.specs.Prelude.{Some};

    ghost state = { λ s. record { taken = Some s.taken; failed_writes = s.failed_writes } };

    fn write(&mut self, bytes: &[u8]) -> TookAnswer
        ensures answer { result ≡ took_answer self.old bytes.now }
        ensures after { self.new ≡ after_took self.old bytes.now result }
        ensures count { self.old.failed_writes ≤ self.new.failed_writes }
    {
        if self.calls.next_fails() {
            self.failed_writes.rise();
            return TookAnswer::Failed;
        }
        if !bytes.is_empty() && self.room == 0 {
            self.failed_writes.rise();
            return TookAnswer::Failed;
        }
        let count = bytes.len().min(self.room);
        self.taken.extend_from_slice(&bytes[..count]).unwrap();
        self.room -= count;
        TookAnswer::Ok(count)
    }
}
