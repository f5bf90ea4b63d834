//! How much a band may leave beside and over its cells, where a strip is to end near enough.

ghost use Rattle.std.specs.Prelude.{◌<◌, ◌≤◌, IfNone, IfSome, length};
ghost use Rattle.front_bound.specs.inner.Placed.{IsStretch, IsSlack, NoneGoesOn};

use crate::stretch::Stretch;
use front_table::ends::near;
use front_table::labels::FrontLabel;
use front_table::levels::ends_of;
use front_table::strips::glass_above;

/// How much a band by which a label of a row goes on may leave beside and over its cells, in mm²; none where no strip can still end near enough.
pub fn slack_of(stretch: &Stretch<'_>, row: usize, label: &FrontLabel) -> Option<u64>
    requires row { row < length stretch.now.fronts.levels.now }
    requires stretch { IsStretch stretch.now }
    ensures none { IfNone result (NoneGoesOn stretch.now row label.now) }
    ensures slack { IfSome result (IsSlack stretch.now row label.now) }
{
    let limits = stretch.limits;
    let wide = u64::from(label.across.least);
    if wide > limits.most {
        return None;
    }
    let end = u64::from(label.right.least);
    if end > stretch.reach {
        return None;
    }
    let within = (limits.most - wide).min(stretch.reach - end);
    let Some(area) = near(ends_of(stretch.fronts.levels, row), within) else {
        return None;
    };
    let whole = glass_above(limits.top, limits.height, label.along.least);
    if whole < area {
        return None;
    }
    Some(whole - area)
}

/// The greater of a slack and of that of one of a row's labels, where bands on this one begin at `low` at the least.
fn more_slack(stretch: &Stretch<'_>, row: usize, label: &FrontLabel, low: u32, slack: u64) -> u64
    requires row { row < length stretch.now.fronts.levels.now }
    requires stretch { IsStretch stretch.now }
    ensures { slack ≤ result }
{
    if label.along.least != low {
        return slack;
    }
    match slack_of(stretch, row, label) {
        Some(own) => slack.max(own),
        None => slack,
    }
}

/// The greatest of a slack and of those of a row's labels on which bands begin at `low` at the least.
pub fn most_slack(
    stretch: &Stretch<'_>,
    row: usize,
    labels: &[FrontLabel],
    low: u32,
    slack: u64,
) -> u64
    requires row { row < length stretch.now.fronts.levels.now }
    requires stretch { IsStretch stretch.now }
    ensures { slack ≤ result }
{
    let mut most = slack;
    for label in labels {
        most = more_slack(stretch, row, label, low, most);
    }
    most
}
