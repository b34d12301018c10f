//! Looking processors up by their paths.
ghost use Rattle.std.specs.Prelude.{◌≡◌, ◌<◌, length, IfOk, IfSome};
ghost use Rattle.pw_audit.specs.inner.Looking.{LeadsTo, cpu_by};

use pw_base::Memory;
use pw_text::PathTexts;
use std::alloc::Global;
use std::collections::HashMap;

/// A map from these texts of paths, so many, to the processors.
pub(crate) fn index_of(
    alloc: Global,
    paths: &PathTexts,
    cpus: u32,
) -> Result<HashMap<Vec<u8>, u32>, Memory>
    requires { length paths.now ≡ cpus }
    ensures { IfOk result (λ index. LeadsTo 0 paths.now index) }
{
    let mut index = HashMap::new(alloc);
    let mut number = cpus;
    while number > 0 {
        number -= 1;
        let key = Vec::from_slice(alloc, paths.path(number))?;
        index.insert(key, number)?;
    }
    Ok(index)
}

/// The processor with this path.
#[tactic(auto, using(crate::proofs::Leading::found_exists))]
pub(crate) fn find(_paths: &PathTexts, index: &HashMap<Vec<u8>, u32>, path: &Vec<u8>) -> Option<u32>
    requires { LeadsTo 0 _paths.now index.now }
    ensures found { result ≡ cpu_by 0 _paths.now path.now.items }
    ensures exists { IfSome result (λ cpu. cpu < length _paths.now) }
{
    index.get(path).copied()
}
