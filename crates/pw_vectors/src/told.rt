use acpi_values::{ReadFault, Register, Shape, Why};

/// `refused 1.2 range`: the first place without a meaning, and why.
pub(crate) fn put_refused(text: &mut String, shape: Shape) -> Option<()> {
    let (outer, inner) = (shape.place.outer, shape.place.inner);
    let why = match shape.why {
        Why::Kind => "kind",
        Why::Count => "count",
        Why::Revision => "revision",
        Why::Range => "range",
        Why::Register => "register",
    };
    write!(text, "refused {outer}.{inner} {why}").ok()
}

/// The same of a reader that takes memory.
pub(crate) fn put_fault(text: &mut String, fault: ReadFault) -> Option<()> {
    match fault {
        ReadFault::Shape { place, why } => put_refused(text, Shape { place, why }),
        ReadFault::Memory => None,
    }
}

pub(crate) fn put_register(text: &mut String, register: &Register) -> Option<()> {
    let Register {
        space,
        width,
        offset,
        access,
        address,
    } = *register;
    write!(text, "[{space},{width},{offset},{access},0x{address:x}]").ok()
}

/// Puts what stands between one state and the next.
pub(crate) fn separate(text: &mut String) -> Option<()> {
    if text.is_empty() {
        Some(())
    } else {
        text.push_str("; ").ok()
    }
}
