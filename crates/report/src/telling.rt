//! What a network's report says, once it is solved or declined.
ghost use Rattle.std.specs.Prelude.{◌≡◌, ◌≤◌, [], length, take};
ghost use Rattle.std.specs.Option.{ForSome};
ghost use Rattle.amount.specs.Groups.{row_group};
ghost use Rattle.network.specs.Walks.{net as walks};
ghost use Rattle.network.specs.Walks.{Period as IsPeriod};
ghost use Rattle.engine.specs.Solved.{Enough, row_at};
ghost use Rattle.engine.specs.Workspaces.{held};
ghost use Rattle.file.specs.Contents.{plain_claim};
ghost use Rattle.report.specs.Reported.{VerdictOn, Solution, NetworkText, text_of};
ghost use Rattle.report.specs.Verdicts.{Modest};

use crate::fault::TooBig;
use crate::measures::Printed;
use crate::page::report_page;
use crate::text::Page;
use crate::verdict::{Verdict, judge};
use amount::filed::Filed;
use amount::measure::Measure;
use engine::{Workspace, solve};
use network::{Network, Period};
use refusal::Refusal;

/// The most events that a report shows.
pub(crate) const MOST_EVENTS: u32 = 60;

/// The verdict on a claim, if there is one.
// That a claim is modest is said here, at the next two and in `judge`: a type for it would be made from a file's claim by a closure with a
// proof of its own, and is no plainer.
fn judged<X: Measure>(period: Period<X>, claim: Option<Period<X>>) -> Option<Verdict>
    requires shown { Modest X.scale period }
    requires claimed { ForSome claim (Modest X.scale) }
    ensures { VerdictOn X.scale.order (X.scale.row period.total) period.count (plain_claim X.scale claim) result }
{
    claim.map(|claim| judge(period, claim))
}

/// The report on a network of at most 60 events that was solved, on an empty page: its period, with the departures and the
/// loop in the workspace.
fn tell<X: Printed, N: Network<X>>(
    net: &N,
    period: Period<X>,
    claim: Option<Period<X>>,
    space: &Workspace<'_, X>,
    page: &mut Page,
)
    requires low { (N.graph net.now).events ≤ 60 }
    requires leaves { (N.graph net.now).events ≤ length space.now.leaves.now }
    requires claimed { ForSome claim (Modest X.scale) }
    requires right { IsPeriod (row_group X.scale.order) (walks X.scale.places (N.graph net.now)) (X.scale.row period.total) period.count (take period.count space.now.circle.now) (row_at X.scale space.now.leaves.now) }
    requires empty { page.old.bytes ≡ [] }
    ensures { Solution X.scale.order X.NUMBER (N.graph net.now) (plain_claim X.scale claim) page.new.bytes }
{
    let verdict = judged(period, claim);
    let waits = &space.circle[..period.count as usize];
    let departures = &space.leaves[..net.event_count() as usize];
    report_page(net, period, waits, departures, verdict, page);
}

/// The report on a network and its claim, with a workspace for 60 events, on an empty page; or why there is none.
pub(crate) fn tell_network<X: Printed, N: Network<X>>(
    net: &N,
    claim: Option<Period<X>>,
    space: &mut Workspace<'_, X>,
    page: &mut Page,
) -> Result<(), Refusal>
    requires claimed { ForSome claim (Modest X.scale) }
    requires enough { Enough 60 (held space.old) }
    requires empty { page.old.bytes ≡ [] }
    ensures { NetworkText X.scale.order X.NUMBER (N.graph net.now) (plain_claim X.scale claim) (text_of page.new.bytes result) }
{
    let n = net.event_count();
    if n > MOST_EVENTS {
        return Err(TooBig(n as u64).into());
    }
    let period = solve(net, space)?;
    tell(net, period, claim, space, page);
    Ok(())
}
