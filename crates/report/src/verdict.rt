//! The verdict on a claimed period.
ghost use Rattle.std.specs.Prelude.{◌≡◌, ◌≤◌, length};
ghost use Rattle.amount.specs.Groups.{row_group};
ghost use Rattle.report.specs.Verdicts.{Judged, Modest};

use amount::measure::Measure;
use network::Period;
use std::cmp::Ordering;

/// How a claimed mean stands to that of the period.
#[derive(Clone, Copy, PartialEq, Eq, Debug)]
pub enum Verdict {
    /// It is the period's mean.
    Right,
    /// It is below.
    Short,
    /// It is above.
    Long,
}

impl Verdict {
    ghost use Rattle.std.specs.Prelude.{IsAscii};
    ghost use Rattle.report.specs.Lines.{verdict_word};

    /// The word for it, of at most five letters.
    pub(crate) fn word(self) -> &'static str
        ensures word { result.now ≡ verdict_word self }
        ensures short { length result.now ≤ 5 }
        ensures ascii { IsAscii result.now }
    {
        match self {
            Verdict::Right => "right",
            Verdict::Short => "short",
            Verdict::Long => "long",
        }
    }
}

/// Compares the means by cross-multiplication, in the measure's order.
pub(crate) fn judge<X: Measure>(period: Period<X>, claim: Period<X>) -> Verdict
    requires shown { Modest X.scale period }
    requires claimed { Modest X.scale claim }
    ensures { Judged (row_group X.scale.order) (X.scale.row period.total) period.count (X.scale.row claim.total) claim.count result }
{
    let shown = period.total * claim.count;
    let claimed = claim.total * period.count;
    match shown.cmp(&claimed) {
        Ordering::Greater => Verdict::Short,
        Ordering::Less => Verdict::Long,
        Ordering::Equal => Verdict::Right,
    }
}
