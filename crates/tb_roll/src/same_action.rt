//! Whether two actions are the same.

ghost use Rattle.std.specs.Prelude.{◌≡◌, ◌↔◌, IsTrue};

use tb_model::Action;

/// Whether the actions are the same, with all their numbers, names and items.
pub fn is_same_action(a: &Action, b: &Action) -> bool
    ensures { IsTrue result ↔ (a.now ≡ b.now) }
{
    match (a, b) {
        (
            Action::Let { reg, value },
            Action::Let {
                reg: other,
                value: number,
            },
        ) => reg == other && value == number,
        (
            Action::Load { reg, cell, value },
            Action::Load {
                reg: other,
                cell: place,
                value: number,
            },
        ) => reg == other && cell == place && value == number,
        (
            Action::Store { cell, value },
            Action::Store {
                cell: place,
                value: number,
            },
        ) => cell == place && value == number,
        (Action::Print { value }, Action::Print { value: number }) => value == number,
        (Action::Spawn(spawned), Action::Spawn(other)) => spawned.get().is_same(other.get()),
        (Action::Wait { items }, Action::Wait { items: others }) => items.is_same(others),
        (Action::Test { yes }, Action::Test { yes: answer }) => yes == answer,
        (Action::Start, Action::Start)
        | (Action::Open, Action::Open)
        | (Action::Close, Action::Close)
        | (Action::End, Action::End)
        | (Action::Fault, Action::Fault) => true,
        _ => false,
    }
}
