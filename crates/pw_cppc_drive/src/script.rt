use pw_base::List;
use pw_cppc::CppcRequest;

/// A line of a script that asks for something.
#[derive(Clone, Copy)]
pub struct CppcLine {
    /// Its number in the text: lines are counted from 1, those that ask nothing too.
    pub number: u32,
    pub request: CppcRequest,
}

/// The lines of a script that ask for something, in their order.
#[derive(Drop)]
pub struct CppcScript {
    pub lines: List<CppcLine>,
}
