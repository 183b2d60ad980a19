//! What an attempt puts and drops.

ghost use Rattle.std.specs.Prelude.{◌≡◌, ◌==◌, ◌++◌, ◌∷◌, [], IsSomeAnd, IsTrue, ◌↔◌, OnOk, OnErr, length, position};
ghost use Rattle.std.specs.Option.{option_copied};
ghost use Rattle.rh_plan.specs.Judging.{are_same};

use rh_plan::MadePut;
use rh_rules::Numbers;
use rh_words::{OutOfMemory, Words};
use std::alloc::Global;
use std::marker::Model;

/// What an attempt puts, and which awaited promises it drops, each in body order.
#[derive(Drop)]
pub struct Buffer {
    puts: Vec<MadePut>,
    drops: Numbers,
}

impl Model for Buffer {
    ghost use Rattle.rh_plan.specs.Buffers.{BufferData, buffer_data};

    ghost Value = { BufferData };

    ghost view = { λ b. buffer_data b.puts.items b.drops };
}

impl Buffer {
    ghost use Rattle.rh_plan.specs.Buffers.{buffer_data, buffer_with, words_put};

    /// Nothing is put, and nothing dropped.
    pub(crate) fn new(alloc: Global) -> Buffer
        ensures { result ≡ buffer_data [] [] }
    {
        Buffer {
            puts: Vec::new(alloc),
            drops: Numbers::new(alloc),
        }
    }

    pub(crate) fn put(&mut self, put: MadePut) -> Result<(), OutOfMemory>
        ensures ok { OnOk result (self.new ≡ buffer_data (self.old.puts ++ put ∷ []) self.old.drops) }
        ensures err { OnErr result (self.new ≡ self.old) }
    {
        self.puts.push(put)?;
        Ok(())
    }

    pub(crate) fn drop_await(&mut self, promise: u32) -> Result<(), OutOfMemory>
        ensures ok { OnOk result (self.new ≡ buffer_data self.old.puts (self.old.drops ++ promise ∷ [])) }
        ensures err { OnErr result (self.new ≡ self.old) }
    {
        self.drops.push(promise)
    }

    /// Whether both put the same words to the same promises in the same order, and drop the same promises in the same order.
    pub fn same(&self, other: &Buffer) -> bool
        ensures value { result ≡ are_same self.now other.now }
        ensures equal { IsTrue result ↔ (self.now ≡ other.now) }
    {
        is_same(self, other)
    }

    /// The words that it puts to a promise, where it puts some.
    pub fn put_of(&self, promise: u32) -> Option<&Words>
        ensures { option_copied result ≡ words_put promise self.now.puts }
    {
        match self.puts.iter().find(|p| p.promise == promise) {
            Some(put) => Some(&put.words),
            None => None,
        }
    }

    /// Puts other words to a promise to which it puts as many. It takes no memory.
    pub fn set_put(&mut self, promise: u32, words: Words)
        requires { IsSomeAnd (words_put promise self.old.puts) (λ w. length w ≡ length words) }
        ensures { self.new ≡ buffer_with promise words self.old }
    {
        if let Some(at) = first_put(self.puts.as_slice(), promise) {
            self.puts[at] = MadePut { promise, words };
        }
    }

    /// The awaited promises that it drops, in body order.
    pub fn drops(&self) -> &[u32]
        ensures { result.now ≡ self.now.drops }
    {
        self.drops.as_slice()
    }

    /// What it puts, in body order.
    pub fn puts(&self) -> &[MadePut]
        ensures { result.now ≡ self.now.puts }
    {
        self.puts.as_slice()
    }

    /// What it puts, in body order, without a copy.
    pub fn into_puts(self) -> Vec<MadePut>
        ensures { result.items ≡ self.puts }
    {
        let Buffer { puts, drops: _ } = self;
        puts
    }
}

/// Whether both put and drop the same.
#[tactic(auto, unfolding(rh_plan::specs::Judging::are_same))]
fn is_same(a: &Buffer, b: &Buffer) -> bool
    ensures { result ≡ are_same a.now b.now }
{
    a.puts.as_slice() == b.puts.as_slice() && a.drops.as_slice() == b.drops.as_slice()
}

/// The place of the first put to a promise.
fn first_put(puts: &[MadePut], promise: u32) -> Option<usize>
    ensures { result ≡ position (λ p. p.promise == promise) puts.now }
{
    puts.iter().position(|p| p.promise == promise)
}
