ghost use Rattle.std.specs.Prelude.{◌≡◌, IfOk};
ghost use Rattle.pw_cppc_drive.specs.inner.Paths.{paths_of};

use pw_base::Memory;
use pw_cppc::CppcPlan;
use pw_text::PathTexts;
use std::alloc::Global;

/// The texts of the processors' paths, by their numbers.
pub fn cppc_path_texts(alloc: Global, plan: &CppcPlan) -> Result<PathTexts, Memory>
    ensures { IfOk result (λ paths. paths ≡ paths_of plan.now) }
{
    let mut paths = PathTexts::new(alloc);
    for path in plan.paths.as_slice() {
        paths.push(alloc, path.segs.as_slice())?;
    }
    Ok(paths)
}
