ghost use Rattle.std.specs.Prelude.{ℕ};

/// What a coordinator keeps of its history, and so how many entries that may have at most.
pub trait Keeps {
    ghost most: { ℕ };
}

/// Each entry is kept, for who closes the coordinator.
#[derive(Drop)]
pub struct Kept;

/// The entries are counted, and none is kept.
#[derive(Drop)]
pub struct Counted;

impl Keeps for Kept {
    ghost most = { 65536 };
}

impl Keeps for Counted {
    ghost most = { 18446744073709551615 };
}
