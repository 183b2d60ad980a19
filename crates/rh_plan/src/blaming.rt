//! Why a task is skipped or a group stays closed.

ghost use Rattle.std.specs.Prelude.{◌≡◌};
ghost use Rattle.rh_plan.specs.Results.{blamed, first_absent};

use crate::outcome::Cause;
use rh_rules::Node;

/// Nothing exactly where a task runs or a group opens, else the cause.
pub fn blamed(node: &Node, group_opened: bool, present: &[bool]) -> Option<Cause>
    ensures { result ≡ blamed node.now.group group_opened node.now.awaits present.now }
{
    match node.group {
        Some(group) if !group_opened => Some(Cause::Group(group)),
        _ => first_absent(node.awaits.as_slice(), present),
    }
}

/// The first of the promises that is not there.
fn first_absent(awaits: &[u32], present: &[bool]) -> Option<Cause>
    ensures { result ≡ first_absent awaits.now present.now }
{
    let mut promises = awaits;
    let mut flags = present;
    while let [promise, others @ ..] = promises {
        let [flag, more @ ..] = flags else {
            return None;
        };
        if !*flag {
            return Some(Cause::Promise(*promise));
        }
        promises = others;
        flags = more;
    }
    None
}
