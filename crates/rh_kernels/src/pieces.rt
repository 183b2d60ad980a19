//! Lists that are cut out of another or joined.

ghost use Rattle.std.specs.Prelude.{◌≡◌, ◌+◌, ◌++◌, ◌≤◌, IfOk, OnOk, OnErr, length};
ghost use Rattle.rh_words.specs.Kernels.{cut_value};

use rh_words::{OutOfMemory, Words};
use std::alloc::Global;

/// `len` words, the first of which is the one at the place `from`, counted from 0.
pub fn cut(alloc: Global, a: &[u64], from: u32, len: u32) -> Result<Words, OutOfMemory>
    requires { from + len ≤ length a.now }
    ensures { IfOk result (λ w. w ≡ cut_value a.now from len) }
{
    let from = from as usize;
    Words::from_slice(alloc, &a[from..from + len as usize])
}

/// Puts a part behind the words that are joined so far.
pub fn join_part(_alloc: Global, into: &mut Words, part: &[u64]) -> Result<(), OutOfMemory>
    ensures ok { OnOk result (into.new ≡ into.old ++ part.now) }
    ensures err { OnErr result (into.new ≡ into.old) }
{
    into.append(part)
}
