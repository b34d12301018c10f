use acpi_fields::package_object;
use aml_data::Data;
use pw_base::CompactList;
use std::alloc::Global;

/// The template of a register at 0x414, with checksum 0.
const TEMPLATE: [u8; 17] = [
    0x82, 0x0C, 0x00, 0x01, 0x08, 0x00, 0x01, 0x14, 0x04, 0x00, 0x00, 0x00, 0x00, 0x00, 0x00, 0x79,
    0x00,
];

/// What stands at a place of an object, an element and a field, both counted from 1; 0 and 0 are the whole.
#[derive(Clone, Copy)]
pub(crate) struct Change<'a> {
    pub outer: usize,
    pub inner: usize,
    pub part: &'a str,
}

/// What stands at this place in place of what belongs there.
fn changed<'a>(changes: &[Change<'a>], outer: usize, inner: usize) -> Option<&'a str> {
    for change in changes {
        if change.outer == outer && change.inner == inner {
            return Some(change.part);
        }
    }
    None
}

/// A buffer of this size, with so many first bytes of the template, the last of 17 being this one.
fn buffer(alloc: Global, size: u64, count: usize, last: u8) -> Option<Data> {
    let mut template = TEMPLATE;
    template[16] = last;
    let bytes = CompactList::from_slice(alloc, template.get(..count)?).ok()?;
    Data::buffer(alloc, size, bytes).ok()
}

fn number(word: &str) -> Option<u64> {
    match word.strip_prefix("0x") {
        Some(digits) => u64::from_str_radix(digits, 16).ok(),
        None => word.parse::<u64>().ok(),
    }
}

/// The object of a word: a number, `ones`, `revision`, `text`, `register`, `unsummed`, or `SIZE:COUNT` of a
/// buffer with so many bytes of a register.
fn data_of(alloc: Global, word: &str) -> Option<Data> {
    match word {
        "ones" => Some(Data::Ones),
        "revision" => Some(Data::Revision),
        "text" => Some(Data::Text(CompactList::from_slice(alloc, b"S12").ok()?)),
        "register" => buffer(alloc, 17, 17, 0),
        "unsummed" => buffer(alloc, 17, 17, 1),
        _ => match word.split_once(":") {
            Some((size, count)) => {
                buffer(
                    alloc,
                    size.parse::<u64>().ok()?,
                    count.parse::<usize>().ok()?,
                    0,
                )
            }
            None => Some(Data::Int(number(word)?)),
        },
    }
}

/// A package of these elements, or one of variable length that counts more elements than there are.
fn package(alloc: Global, elements: Vec<Data>, is_variable: bool) -> Option<Data> {
    if elements.len() >= 200 {
        return None;
    }
    if is_variable {
        let elements = CompactList::from_vec(alloc, elements).ok()?;
        return Data::var_package(alloc, 200, elements).ok();
    }
    package_object(alloc, elements).ok()
}

/// Appends what stands at a place, where this belongs there.
fn put_part(
    alloc: Global,
    elements: &mut Vec<Data>,
    part: &str,
    change: Option<&str>,
) -> Option<()> {
    match change {
        None => elements.push(data_of(alloc, part)?).ok(),
        Some("out") => Some(()),
        Some("twice") => {
            elements.push(data_of(alloc, part)?).ok()?;
            elements.push(data_of(alloc, part)?).ok()
        }
        Some(other) => elements.push(data_of(alloc, other)?).ok(),
    }
}

/// Appends these parts, of which element `outer` consists; the whole for 0.
fn put_parts(
    alloc: Global,
    elements: &mut Vec<Data>,
    parts: &str,
    changes: &[Change],
    outer: usize,
) -> Option<()> {
    for (before, part) in parts.split_whitespace().enumerate() {
        let number = before.saturating_add(1);
        let change = if outer == 0 {
            changed(changes, number, 0)
        } else {
            changed(changes, outer, number)
        };
        put_part(alloc, elements, part, change)?;
    }
    Some(())
}

/// A package of these fields, as element `outer`.
fn row(
    alloc: Global,
    fields: &str,
    changes: &[Change],
    outer: usize,
    is_variable: bool,
) -> Option<Data> {
    let mut elements = Vec::new(alloc);
    put_parts(alloc, &mut elements, fields, changes, outer)?;
    package(alloc, elements, is_variable)
}

/// Appends element `outer`, a package of these fields unless it is changed.
fn put_row(
    alloc: Global,
    elements: &mut Vec<Data>,
    fields: &str,
    changes: &[Change],
    outer: usize,
) -> Option<()> {
    match changed(changes, outer, 0) {
        None => elements
            .push(row(alloc, fields, changes, outer, false)?)
            .ok(),
        Some("out") => Some(()),
        Some("twice") => {
            elements
                .push(row(alloc, fields, changes, outer, false)?)
                .ok()?;
            elements
                .push(row(alloc, fields, changes, outer, false)?)
                .ok()
        }
        Some("variable") => elements
            .push(row(alloc, fields, changes, outer, true)?)
            .ok(),
        Some(other) => elements.push(data_of(alloc, other)?).ok(),
    }
}

/// Appends the elements of the whole: those before the first bar, and then a package for each bar.
fn put_elements(
    alloc: Global,
    elements: &mut Vec<Data>,
    good: &str,
    changes: &[Change],
) -> Option<()> {
    let (front, _) = good.split_once("|").unwrap_or((good, ""));
    put_parts(alloc, elements, front, changes, 0)?;
    let before = front.split_whitespace().count();
    for (number, fields) in good.split("|").enumerate().skip(1) {
        let outer = before.saturating_add(number);
        put_row(alloc, elements, fields, changes, outer)?;
    }
    Some(())
}

/// A good object, but for what is changed.
pub(crate) fn object_of(alloc: Global, good: &str, changes: &[Change]) -> Option<Data> {
    let whole = changed(changes, 0, 0).unwrap_or("");
    let (key, count) = whole.split_once(":").unwrap_or((whole, ""));
    if key != "" && key != "variable" && key != "first" {
        return data_of(alloc, whole);
    }
    let mut elements = Vec::new(alloc);
    put_elements(alloc, &mut elements, good, changes)?;
    if key == "first" {
        elements.truncate(count.parse::<usize>().ok()?);
    }
    package(alloc, elements, key == "variable")
}
