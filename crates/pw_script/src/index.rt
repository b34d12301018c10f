ghost use Rattle.std.specs.Prelude.{◌≡◌, ◌<◌, length, option_map, IfOk, IfSome};
ghost use Rattle.pw_text.specs.Forms.{name_of};
ghost use Rattle.pw_text.specs.Looking.{IsIndexOf, LeadsTo};
ghost use Rattle.pw_script.specs.Forms.{cpu_named, segs_of};

use crate::paths::path_texts;
use pw_base::Memory;
use pw_plan::Plan;
use pw_text::{PathIndex, Spelled, index_path};
use std::alloc::Global;
use std::collections::HashMap;

/// The processors of a plan by the segments of their paths.
fn names_of(alloc: Global, plan: &Plan) -> Result<HashMap<Vec<u8>, u32>, Memory>
    ensures { IfOk result (λ index. LeadsTo segs_of 0 plan.now.cpus index) }
{
    let cpus = plan.cpus.as_slice();
    let mut index = HashMap::new(alloc);
    let mut number = cpus.len();
    while number > 0 {
        number -= 1;
        index_path(alloc, &mut index, &cpus[number].path, number as u32)?;
    }
    Ok(index)
}

/// The processors of a plan by their paths.
pub(crate) fn index_of(alloc: Global, plan: &Plan) -> Result<PathIndex, Memory>
    ensures { IfOk result (λ index. IsIndexOf segs_of plan.now.cpus index) }
{
    let names = names_of(alloc, plan)?;
    PathIndex::new(alloc, names, &path_texts(alloc, plan)?)
}

/// The processor that a path leads to, if any; nothing where the text is no path. `room` is room for it.
pub(crate) fn find(
    plan: &Plan,
    index: &PathIndex,
    room: &mut Spelled,
    path: &[u8],
) -> Result<Option<Option<u32>>, Memory>
    requires { IsIndexOf segs_of plan.now.cpus index.now }
    ensures named { IfOk result (λ found. found ≡ option_map (cpu_named plan.now) (name_of path.now)) }
    ensures exists { IfOk result
        (λ found. IfSome found (λ some. IfSome some (λ cpu. cpu < length plan.now.cpus))) }
{
    index.find(room, path)
}
