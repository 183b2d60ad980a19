//! What a task does, step by step.

ghost use Rattle.std.specs.Prelude.{◌≡◌, ◌++◌, ◌∷◌, [], OnOk, OnErr};

use rh_words::{OutOfMemory, Words};
use std::alloc::Global;
use std::marker::Model;

/// One planned statement of a task. The result of a `let` is the task's next local. Locals, promises and matrices are
/// named by their numbers, counted from 0: `a`, `b`, `l`, `m`, `r`, `v`, the four sides, `local` and `when` are locals,
/// `parts` is a list of locals. Lengths and columns are in words.
#[derive(Drop)]
pub enum Step {
    Lit {
        words: Words,
    },
    Gen {
        n: u32,
        start: u64,
        limit: u64,
    },
    Add {
        a: u32,
        b: u32,
    },
    Sub {
        a: u32,
        b: u32,
    },
    Mul {
        a: u32,
        b: u32,
    },
    Scale {
        a: u32,
        k: u64,
    },
    Shift {
        a: u32,
        s: u32,
    },
    Cut {
        a: u32,
        from: u32,
        len: u32,
    },
    Join {
        parts: Words,
    },
    Sum {
        a: u32,
    },
    Count {
        a: u32,
    },
    Stencil1 {
        l: u32,
        m: u32,
        r: u32,
        k: u64,
        s: u32,
    },
    Stencil2 {
        north: u32,
        south: u32,
        west: u32,
        east: u32,
        m: u32,
        cols: u32,
        k: u64,
        s: u32,
    },
    Product {
        matrix: u32,
        v: u32,
    },
    Put {
        promise: u32,
        local: u32,
        when: Option<u32>,
    },
    DropAwait {
        promise: u32,
    },
}

/// The steps of a task in order.
#[derive(Drop)]
pub struct Body {
    steps: Vec<Step>,
}

impl Model for Body {
    ghost use Rattle.std.specs.Prelude.{List};
    ghost use Rattle.rh_rules.specs.declared.body.Step.{Step};

    ghost Value = { List Step };

    ghost view = { λ b. b.steps.items };
}

impl Body {
    /// No steps. It takes no memory.
    pub fn new(alloc: Global) -> Body
        ensures { result ≡ [] }
    {
        Body {
            steps: Vec::new(alloc),
        }
    }

    /// Adds a step at the end.
    pub fn push(&mut self, step: Step) -> Result<(), OutOfMemory>
        ensures ok { OnOk result (self.new ≡ self.old ++ step ∷ []) }
        ensures err { OnErr result (self.new ≡ self.old) }
    {
        self.steps.push(step)?;
        Ok(())
    }

    /// The steps in order.
    pub fn steps(&self) -> &[Step]
        ensures { result.now ≡ self.now }
    {
        self.steps.as_slice()
    }
}
