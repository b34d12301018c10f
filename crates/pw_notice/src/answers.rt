ghost use Rattle.std.specs.Prelude.{◌≡◌, ◌<◌, ◌≤◌};
ghost use Rattle.pw_notice.specs.Handling.{followed, stepped};

/// The value, or the last state where it is past that. States are counted from 0, and there are `count`.
pub fn follow(count: u32, _current: u32, value: u32) -> u32
    requires { 1 ≤ count }
    ensures value { result ≡ followed count value }
    ensures below { result < count }
{
    value.min(count - 1)
}

/// One state from the limit that stands towards what `follow` answers.
pub fn step(count: u32, current: u32, value: u32) -> u32
    requires some { 1 ≤ count }
    requires current { current < count }
    ensures value { result ≡ stepped count current value }
    ensures below { result < count }
{
    let target = follow(count, current, value);
    if current < target {
        current + 1
    } else if target < current {
        current - 1
    } else {
        current
    }
}
