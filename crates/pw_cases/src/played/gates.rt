ghost use Rattle.std.specs.Prelude.{◌≡◌, None, Some};

use pw_base::Gate;
use std::sync::atomic::{AtomicU64, Ordering};
use std::thread::yield_now;

/// How often a request that is held looks before it gives up.
const MOST_LOOKS: u32 = 10_000_000;

/// A gate that holds requests, with their records held and the journal not taken, until so many others have
/// come to a point.
#[derive(Drop)]
pub(crate) struct Meeting {
    /// Whose requests are held, all without a number.
    held: Option<u32>,
    /// Whose requests are counted, all without a number.
    counted: Option<u32>,
    /// The point at which they are counted.
    point: u32,
    wanted: u64,
    came: AtomicU64,
    gave_up: AtomicU64,
}

fn is_of(whom: Option<u32>, cpu: u32) -> bool {
    match whom {
        None => true,
        Some(one) => one == cpu,
    }
}

impl Meeting {
    fn new(held: Option<u32>, counted: Option<u32>, point: u32, wanted: u64) -> Meeting
        ensures holds { result.held ≡ held }
        ensures counts { (result.counted ≡ counted) × (result.point ≡ point) × (result.wanted ≡ wanted) }
    {
        Meeting {
            held,
            counted,
            point,
            wanted,
            came: AtomicU64::new(0),
            gave_up: AtomicU64::new(0),
        }
    }

    /// Holds one processor's requests until another's has been answered.
    pub(crate) fn of_two(held: u32, other: u32) -> Meeting
        ensures holds { result.held ≡ Some held }
        ensures counts { (result.counted ≡ Some other) × (result.point ≡ 1) × (result.wanted ≡ 1) }
    {
        Meeting::new(Some(held), Some(other), 1, 1)
    }

    /// Holds every request until so many are held.
    pub(crate) fn of_all(wanted: u32) -> Meeting
        ensures holds { result.held ≡ None }
        ensures counts { (result.counted ≡ None) × (result.point ≡ 0) × (result.wanted ≡ wanted) }
    {
        Meeting::new(None, None, 0, u64::from(wanted))
    }

    /// Whether a request was let go before the others came.
    pub(crate) fn gave_up(&self) -> bool {
        self.gave_up.load(Ordering::SeqCst) != 0
    }

    fn wait(&self) {
        for _look in 0..MOST_LOOKS {
            if self.came.load(Ordering::SeqCst) >= self.wanted {
                return;
            }
            yield_now();
        }
        self.gave_up.store(1, Ordering::SeqCst);
    }
}

impl Gate for Meeting {
    fn reached(&self, cpu: u32, point: u32) {
        if point == self.point && is_of(self.counted, cpu) {
            self.came.fetch_add(1, Ordering::SeqCst);
        }
        if point == 0 && is_of(self.held, cpu) {
            self.wait();
        }
    }
}
