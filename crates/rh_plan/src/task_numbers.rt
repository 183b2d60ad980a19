//! The tasks of a plan by their names.

ghost use Rattle.std.specs.Prelude.{◌≡◌, ◌≤◌, List, IfOk, OnOk, length, map};
ghost use Rattle.rh_words.specs.declared.limits.TheConstants.{MAX_NODES};
ghost use Rattle.std.specs.List.{IsDistinct};
ghost use Rattle.std.specs.Str.{bytes_eq};
ghost use Rattle.rh_plan.specs.FaultLines.{task_among};
ghost use Rattle.rh_plan.specs.FaultTables.{AreTasksNumbered, IsTaskNoted};
ghost use Rattle.rh_rules.specs.declared.node.Node.{Node};

use rh_rules::{Kind, Node};
use rh_words::{Name, NameKey, OutOfMemory, keys_tell_names_apart};
use std::alloc::Global;
use std::collections::HashMap;

/// The numbers of tasks, found by name through one map.
#[derive(Drop)]
pub struct TaskNumbers {
    known: HashMap<NameKey, u32>,
}

impl TaskNumbers {
    /// The tasks among these nodes, each by its place.
    pub fn of(alloc: Global, nodes: &[Node]) -> Result<TaskNumbers, OutOfMemory>
        requires distinct { IsDistinct bytes_eq (map (λ node. node.name) nodes.now) }
        requires few { length nodes.now ≤ MAX_NODES }
        ensures { IfOk result (λ tasks. AreTasksNumbered tasks.known nodes.now) }
    {
        keys_tell_names_apart();
        let mut known = HashMap::new(alloc);
        for (at, node) in nodes.iter().enumerate() {
            let _is_name = node.name.bytes();
            note_task(&mut known, node, at as u32)?;
        }
        Ok(TaskNumbers { known })
    }

    /// The number of the task of the name.
    pub fn number(&self, name: &Name) -> Option<u32>
        ensures { (nodes : List Node) → AreTasksNumbered self.now.known nodes → result ≡ task_among nodes name.now }
    {
        let _is_name = name.bytes();
        self.known.get(&name.key()).copied()
    }
}

/// Notes the number of a node that is a task.
fn note_task(known: &mut HashMap<NameKey, u32>, node: &Node, number: u32) -> Result<(), OutOfMemory>
    ensures { OnOk result (IsTaskNoted known.old known.new node.now number) }
{
    match node.kind {
        Kind::Task => {
            known.insert(node.name.key(), number)?;
            Ok(())
        }
        Kind::Group | Kind::Scope => Ok(()),
    }
}
