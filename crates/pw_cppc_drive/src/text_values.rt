ghost use Rattle.pw_cppc_drive.specs.Telling.{HasSegments};

use pw_cppc::CppcPlan;
use pw_history::segments_known;

/// Each plan of performance has paths of segments.
pub fn cppc_plans_have_segments(plan: &CppcPlan)
    ensures { HasSegments plan.now }
{
    let mut left = plan.paths.as_slice();
    while let [path, rest @ ..] = left {
        segments_known(path.segs.as_slice());
        left = rest;
    }
}
