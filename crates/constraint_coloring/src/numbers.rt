// A plan as four numbers, as C keeps it: bodies, constraints, groups, and the constraints of the largest group.
ghost use Rattle.std.specs.Prelude.{◌≡◌};
ghost use Rattle.constraint_coloring.specs.Numbers.{plan_of_numbers, plan_numbers};

use crate::ConstraintColoring;

impl From<[usize; 4]> for ConstraintColoring {
    ghost from_gives = { λ numbers plan. plan ≡ plan_of_numbers numbers };

    fn from(numbers: [usize; 4]) -> ConstraintColoring {
        ConstraintColoring {
            body_count: numbers[0],
            constraint_count: numbers[1],
            color_count: numbers[2],
            max_color_constraint_count: numbers[3],
        }
    }
}

impl From<ConstraintColoring> for [usize; 4] {
    ghost from_gives = { λ plan numbers. numbers ≡ plan_numbers plan };

    fn from(plan: ConstraintColoring) -> [usize; 4] {
        [
            plan.body_count,
            plan.constraint_count,
            plan.color_count,
            plan.max_color_constraint_count,
        ]
    }
}
