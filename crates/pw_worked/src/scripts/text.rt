use pw_machines::put_request;
use pw_script::{Line, LineWhy, ScriptFault};

/// Lines that ask for something, as `asks 2 idle 0 3 60`.
pub(crate) fn put_lines(text: &mut String, lines: &[Line]) -> Option<()> {
    for line in lines {
        let number = line.number;
        write!(text, "asks {number} ").ok()?;
        put_request(text, &line.request)?;
        text.push_str("\n").ok()?;
    }
    Some(())
}

/// Why bytes are no script.
pub(crate) fn put_fault(text: &mut String, fault: ScriptFault) -> Option<()> {
    match fault {
        ScriptFault::TooLong { bound } => writeln!(text, "script: longer than {bound}").ok(),
        ScriptFault::Line { number, why } => {
            let why = match why {
                LineWhy::Grammar => "grammar",
                LineWhy::Processor => "processor",
                LineWhy::Number => "number",
            };
            writeln!(text, "script: line {number} {why}").ok()
        }
        ScriptFault::Memory => None,
    }
}

/// Each line behind `out`.
pub(crate) fn put_out(text: &mut String, printed: &str) -> Option<()> {
    for line in printed.split_inclusive("\n") {
        text.push_str("out ").ok()?;
        text.push_str(line).ok()?;
    }
    Some(())
}
