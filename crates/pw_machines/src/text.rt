use acpi_values::{Chain, Op, Register};
use pw_model::Reply;

/// What a request is answered, and what it operates: `entered 3 1; enter 0 [127,32,0,3,0x13] 3 1`.
pub fn put_outcome(text: &mut String, reply: &Reply, ops: &[Op]) -> Option<()> {
    put_reply(text, reply)?;
    put_ops(text, ops)
}

/// Operations, each behind `; ` where it isn't the first.
pub fn put_ops(text: &mut String, ops: &[Op]) -> Option<()> {
    for op in ops {
        if !text.is_empty() {
            text.push_str("; ").ok()?;
        }
        put_op(text, op)?;
    }
    Some(())
}

/// A reply: `entered 2 1`, `running`, `stands 0`, or `refused` and why.
pub fn put_reply(text: &mut String, reply: &Reply) -> Option<()> {
    match reply {
        Reply::Entered { chain } => {
            text.push_str("entered").ok()?;
            put_chain(text, chain)
        }
        Reply::Running => text.push_str("running").ok(),
        Reply::Stands { index } => write!(text, "stands {index}").ok(),
        _ => put_refusal(text, reply),
    }
}

fn put_refusal(text: &mut String, reply: &Reply) -> Option<()> {
    text.push_str("refused ").ok()?;
    match reply {
        Reply::NoState { count } => write!(text, "no state, count {count}").ok(),
        Reply::Disabled => text.push_str("disabled").ok(),
        Reply::AboveLimit { limit } => write!(text, "above limit {limit}").ok(),
        Reply::NoTable => text.push_str("no table").ok(),
        Reply::Unfit { domain, why } => write!(text, "unfit domain {domain} why {why}").ok(),
        Reply::TooSlow { latency } => write!(text, "latency {latency}").ok(),
        _ => None,
    }
}

/// Each state behind a space.
fn put_chain(text: &mut String, chain: &Chain) -> Option<()> {
    for state in chain.states.get(..chain.len as usize)? {
        write!(text, " {state}").ok()?;
    }
    Some(())
}

fn put_op(text: &mut String, op: &Op) -> Option<()> {
    match op {
        Op::Set {
            cpu,
            register,
            value,
        } => {
            write!(text, "set {cpu} ").ok()?;
            put_register(text, register)?;
            write!(text, " 0x{value:x}").ok()
        }
        Op::Enter { cpu, composite } => {
            write!(text, "enter {cpu} ").ok()?;
            put_register(text, &composite.register)?;
            put_chain(text, &composite.states)
        }
    }
}

fn put_register(text: &mut String, register: &Register) -> Option<()> {
    let Register {
        space,
        width,
        offset,
        access,
        address,
    } = *register;
    write!(text, "[{space},{width},{offset},{access},0x{address:x}]").ok()
}
