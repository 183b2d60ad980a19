//! The locals of a task while its lines are planned.

ghost use Rattle.std.specs.Prelude.{◌≡◌, ◌<◌, IfSome, length};
ghost use Rattle.rh_rules.specs.Tables.{local, place_of};

use rh_words::Name;
use std::marker::Model;

/// A local: a name, and how many words it has.
#[derive(Drop)]
pub struct Local {
    name: Name,
    len: u32,
}

impl Model for Local {
    ghost use Rattle.rh_rules.specs.Tables.{LocalName, local};

    ghost Value = { LocalName };

    ghost view = { λ l. local l.name l.len };
}

impl Local {
    pub fn new(name: Name, len: u32) -> Local
        ensures { result ≡ local name len }
    {
        Local { name, len }
    }

    pub fn len(&self) -> u32
        ensures { result ≡ self.now.len }
    {
        self.len
    }

    pub fn name(&self) -> &Name
        ensures { result.now ≡ self.now.name }
    {
        &self.name
    }
}

/// The place of the first local of the name, counted from 0.
pub fn place_of(locals: &[Local], name: &Name) -> Option<usize>
    ensures place { result ≡ place_of name.now locals.now }
    ensures within { IfSome result (λ i. i < length locals.now) }
{
    locals.iter().position(|l| l.name().bytes() == name.bytes())
}
