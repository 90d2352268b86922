// A report as four numbers, as C is handed it: islands, turns, takes and D.
ghost use Rattle.std.specs.Prelude.{◌≡◌, ◌∷◌, []};

use crate::Report;

impl From<Report> for [usize; 4] {
    ghost from_gives = { λ report numbers. numbers ≡ report.islands ∷ report.turns ∷ report.takes ∷ report.degree ∷ [] };

    fn from(report: Report) -> [usize; 4] {
        [report.islands, report.turns, report.takes, report.degree]
    }
}
