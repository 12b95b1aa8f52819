//! Copies of a name, one for each table that retains it.

ghost use Rattle.std.specs.Prelude.{◌≡◌, ◌≤◌, IfOk, IsOk, length, drop};
ghost use Rattle.tb_model.specs.Names.{same_name};

use std::alloc::AllocError;
use tb_model::TaskName;

/// The copies of a child's name, and of its parent's, that the child's spawn hands to the tables.
/// Those of deep names may be refused, so they are made in advance.
#[derive(Drop)]
pub struct Copies {
    pub of_holders: TaskName,
    pub of_waits: TaskName,
    pub of_marks: TaskName,
    pub parent: TaskName,
    pub ghost waits_same: { of_waits ≡ of_holders },
    pub ghost marks_same: { of_marks ≡ of_holders },
    pub ghost family: { parent ≡ drop 1 of_holders },
}

impl Copies {
    /// The copies for the spawn of the child.
    pub fn of(parent: &TaskName, child: &TaskName) -> Result<Copies, AllocError>
        requires { parent.now ≡ drop 1 child.now }
        ensures copies { IfOk result (λ copies. copies.of_holders ≡ child.now) }
        ensures short { length child.now ≤ 3 → IsOk result }
    {
        Ok(Copies {
            of_holders: child.clone()?,
            of_waits: child.clone()?,
            of_marks: child.clone()?,
            parent: parent.clone()?,
        })
    }
}
