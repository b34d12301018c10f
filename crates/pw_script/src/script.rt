use pw_base::List;
use pw_plan::Request;

/// A line of a script that asks for something.
#[derive(Clone, Copy)]
pub struct Line {
    /// Its number in the text: lines are counted from 1, those that ask nothing too.
    pub number: u32,
    pub request: Request,
}

/// The lines of a script that ask for something, in their order.
#[derive(Drop)]
pub struct Script {
    pub lines: List<Line>,
}
