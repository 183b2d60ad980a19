//! The handed-in checks while a text is planned.

ghost use Rattle.std.specs.Prelude.{◌≡◌, ◌<◌, IfOk, IfSome, length, position};
ghost use Rattle.std.specs.Str.{bytes_eq};
ghost use Rattle.rh_check.specs.Users.{handed_checks, user_place, user_named, ArePaired};

use rh_check::{Checks, Spec, UserSpec};
use rh_words::{Name, OutOfMemory};
use std::alloc::Global;
use std::marker::Model;

/// The names of the handed-in checks and what they ask, by place.
#[derive(Drop)]
pub struct Handed {
    names: Vec<Name>,
    specs: Vec<UserSpec>,
}

impl Model for Handed {
    ghost use Rattle.std.specs.Prelude.{◌≡◌, ◌<◌, ◌^◌, length};
    ghost use Rattle.rh_check.specs.Users.{HandedChecks, handed_checks};

    ghost Value = { HandedChecks };

    ghost view = { λ h. handed_checks h.names.items h.specs.items };

    ghost invariant = { λ h. (length h.names.items ≡ length h.specs.items) × (length h.names.items < 2 ^ 32) };
}

impl Handed {
    /// Those that a caller hands in.
    pub fn of<C: Checks>(alloc: Global, checks: &C) -> Result<Handed, OutOfMemory>
        ensures handed { IfOk result (λ handed. handed ≡ handed_checks (C.names checks.now) (C.specs checks.now)) }
        ensures paired { ArePaired (handed_checks (C.names checks.now) (C.specs checks.now)) }
    {
        let mut names = Vec::new(alloc);
        let mut specs = Vec::new(alloc);
        for at in 0..checks.count() {
            names.push(checks.name(at))?;
            specs.push(checks.spec(at))?;
        }
        Ok(Handed { names, specs })
    }

    /// The place of the first of this name.
    pub fn place(&self, name: &Name) -> Option<u32>
        ensures { result ≡ user_place self.now name.now }
    {
        match place_in(&self.names, name) {
            Some(place) => Some(place as u32),
            None => None,
        }
    }

    /// What the handed-in check asks that a check names, where it names one.
    pub fn named(&self, spec: &Spec) -> Option<UserSpec>
        ensures { result ≡ user_named self.now.specs spec.now }
    {
        match spec {
            Spec::User { at } => self.specs.get(*at as usize).copied(),
            _ => None,
        }
    }
}

/// The place of the first of this name.
fn place_in(names: &[Name], name: &Name) -> Option<usize>
    ensures place { result ≡ position (λ n. bytes_eq n name.now) names.now }
    ensures within { IfSome result (λ i. i < length names.now) }
{
    names.iter().position(|n| n.bytes() == name.bytes())
}
