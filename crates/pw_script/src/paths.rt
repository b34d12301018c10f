ghost use Rattle.std.specs.Prelude.{◌≡◌, IfOk};
ghost use Rattle.pw_script.specs.inner.Paths.{paths_of};

use pw_base::Memory;
use pw_plan::Plan;
use pw_text::PathTexts;
use std::alloc::Global;

/// The texts of the processors' paths, by their numbers.
pub fn path_texts(alloc: Global, plan: &Plan) -> Result<PathTexts, Memory>
    ensures { IfOk result (λ paths. paths ≡ paths_of plan.now) }
{
    let mut paths = PathTexts::new(alloc);
    for cpu in plan.cpus.as_slice() {
        paths.push(alloc, cpu.path.segs.as_slice())?;
    }
    Ok(paths)
}
