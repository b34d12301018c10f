ghost use Rattle.std.specs.Prelude.{◌≡◌, ◌<◌, ◌≤◌};
ghost use Rattle.pw_notice.specs.Handling.{Handles};

use std::marker::Model;

/// Two functions that answer which limit is to stand, one for performance and one for throttling states:
/// of how many states there are, the limit that stands, and the value that the platform's object has now.
/// Limits are counted from 0, and what is answered is below the count. Contracts see the pair of functions.
#[derive(Drop)]
pub struct Handlers<P, T> {
    perf: P,
    throttle: T,
}

impl<P, T> Model for Handlers<P, T> {
    ghost use Rattle.std.specs.Coded.{coded×};

    ghost Value = { P × T };

    ghost coded = { coded× P.code T.code };

    ghost view = { λ h. (h.perf, h.throttle) };
}

impl<P: Fn(u32, u32, u32) -> u32, T: Fn(u32, u32, u32) -> u32> Handlers<P, T> {
    /// The handlers that answer by these functions. One of another crate is passed in a closure, as
    /// `|count: u32, current: u32, value: u32| follow(count, current, value)`: where it is named alone,
    /// its contract isn't seen.
    pub fn new(perf: P, throttle: T) -> Handlers<P, T>
        requires perf { Handles (P.pre perf) (P.post perf) }
        requires throttle { Handles (T.pre throttle) (T.post throttle) }
        ensures functions { result ≡ (perf, throttle) }
        ensures perf_handles { Handles (P.pre result.0) (P.post result.0) }
        ensures throttle_handles { Handles (T.pre result.1) (T.post result.1) }
    {
        Handlers { perf, throttle }
    }

    /// The limit of performance states that is to stand.
    pub fn perf_limit(&self, count: u32, current: u32, value: u32) -> u32
        requires handles { Handles (P.pre self.now.0) (P.post self.now.0) }
        requires some { 1 ≤ count }
        requires current { current < count }
        ensures answered { P.post self.now.0 count current value result }
        ensures below { result < count }
    {
        (self.perf)(count, current, value)
    }

    /// The limit of throttling states that is to stand.
    pub fn throttle_limit(&self, count: u32, current: u32, value: u32) -> u32
        requires handles { Handles (T.pre self.now.1) (T.post self.now.1) }
        requires some { 1 ≤ count }
        requires current { current < count }
        ensures answered { T.post self.now.1 count current value result }
        ensures below { result < count }
    {
        (self.throttle)(count, current, value)
    }
}
