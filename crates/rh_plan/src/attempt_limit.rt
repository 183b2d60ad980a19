//! How many attempts a task may make.

ghost use Rattle.std.specs.Prelude.{◌≡◌};
ghost use Rattle.rh_plan.specs.Derived.{attempts_of_kind};

use rh_rules::{Kind, Node, Scheme};

/// The greatest number of attempts of a node.
pub fn attempts_of(node: &Node) -> u32
    ensures { result ≡ attempts_of_kind node.now node.now.kind }
{
    match node.kind {
        Kind::Task => match node.scheme {
            Scheme::Plain => 1,
            Scheme::Replicate => 3,
            Scheme::Replay { limit } => limit,
            Scheme::Abft => 1,
        },
        Kind::Group | Kind::Scope => 0,
    }
}
