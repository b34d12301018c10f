ghost use Rattle.std.specs.Prelude.{◌≡◌, ◌↔◌, ◌<◌, ◌≢◌, ℕ, length, IsTrue};
ghost use Rattle.pw_cppc.specs.Sound.{PathsDiffer, path_in};

use aml_data::FullPath;

/// Whether the paths are the same.
fn same_path(one: &FullPath, other: &FullPath) -> bool
    ensures { IsTrue result ↔ (one.now ≡ other.now) }
{
    one.segs.as_slice() == other.segs.as_slice()
}

/// Whether no path before the one at this number is the same.
fn is_new(paths: &[FullPath], number: usize) -> bool
    requires { number < length paths.now }
    ensures { IsTrue result ↔ ((p : ℕ) → p < number → path_in paths.now p ≢ path_in paths.now number) }
{
    for other in 0..number {
        if same_path(&paths[other], &paths[number]) {
            return false;
        }
    }
    true
}

/// Whether no two of the paths are the same, as those of a plan must be.
pub fn paths_differ(paths: &[FullPath]) -> bool
    ensures { IsTrue result ↔ PathsDiffer paths.now }
{
    for number in 0..paths.len() {
        if !is_new(paths, number) {
            return false;
        }
    }
    true
}
