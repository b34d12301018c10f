use crate::rows::{c_dependency, c_row, control_of, dependency_of, lpi_row, row};
use crate::words::{u32_at, word_at};
use acpi_values::{CDependency, EntryMethod, IdleKind, IdleRow};
use aml_data::Seg;
use pw_base::List;
use pw_plan::Scale;
use std::alloc::Global;

/// What a line gives of a container or a processor.
#[derive(Drop)]
pub struct Parts {
    pub segs: Vec<Seg>,
    pub kind: IdleKind,
    pub rows: Vec<IdleRow>,
    pub csd: Vec<CDependency>,
    pub perf: Option<Scale>,
    pub throttle: Option<Scale>,
}

impl Parts {
    /// Nothing given yet.
    pub(crate) fn new(alloc: Global) -> Parts {
        Parts {
            segs: Vec::new(alloc),
            kind: IdleKind::Absent,
            rows: Vec::new(alloc),
            csd: Vec::new(alloc),
            perf: None,
            throttle: None,
        }
    }

    /// Takes one part in.
    pub(crate) fn put(&mut self, alloc: Global, part: &str) -> Option<()> {
        match word_at(part, 0).unwrap_or("") {
            "" => Some(()),
            "path" => put_segs(&mut self.segs, word_at(part, 1)?),
            "lpi" | "c-state" | "states" => self.put_states(part),
            "csd" => self.csd.push(c_dependency(part)?).ok(),
            _ => self.put_scale(alloc, part),
        }
    }

    fn put_states(&mut self, part: &str) -> Option<()> {
        match word_at(part, 0)? {
            "lpi" => {
                self.kind = IdleKind::Lpi;
                self.rows.push(lpi_row(part)?).ok()
            }
            "c-state" => {
                self.kind = IdleKind::Cst;
                self.rows.push(c_row(part)?).ok()
            }
            _ => {
                self.kind = IdleKind::Lpi;
                put_plain(&mut self.rows, u32_at(part, 1)?)
            }
        }
    }

    fn put_scale(&mut self, alloc: Global, part: &str) -> Option<()> {
        let scale = scale_of(alloc, part)?;
        match word_at(part, 0)? {
            "perf" => self.perf = Some(scale),
            "throttle" => self.throttle = Some(scale),
            _ => return None,
        }
        Some(())
    }

    /// Names a path of one segment, which is another for each number below 676, where no part named one.
    pub(crate) fn name(&mut self, number: u32) -> Option<()> {
        if !self.segs.is_empty() {
            return Some(());
        }
        let high = b'A' + (number / 26 % 26) as u8;
        let low = b'A' + (number % 26) as u8;
        self.segs.push(Seg::new([b'C', high, low, b'_'])?).ok()
    }
}

/// `\` and segments of four characters, joined by dots.
fn put_segs(segs: &mut Vec<Seg>, path: &str) -> Option<()> {
    for seg in path.strip_prefix("\\")?.split(".") {
        segs.push(seg_of(seg.as_bytes())?).ok()?;
    }
    Some(())
}

fn seg_of(bytes: &[u8]) -> Option<Seg> {
    match bytes {
        [a, b, c, d] => Seg::new([*a, *b, *c, *d]),
        _ => None,
    }
}

fn put_plain(rows: &mut Vec<IdleRow>, count: u32) -> Option<()> {
    for _ in 0..count {
        rows.push(row(0, EntryMethod::Integer(0))).ok()?;
    }
    Some(())
}

/// `perf STATES LIMIT REGISTER DOMAIN COORDINATION PROCESSORS`: so many states, whose control values begin
/// at 0x10. The register is `none` or the address of one of 8 bits. With no more words it has no domain.
fn scale_of(alloc: Global, part: &str) -> Option<Scale> {
    let limit = u32_at(part, 2)?;
    let register = control_of(part)?;
    let dependency = dependency_of(part)?;
    Some(Scale {
        controls: List::from_vec(controls_of(alloc, u32_at(part, 1)?)?),
        limit,
        register,
        dependency,
    })
}

fn controls_of(alloc: Global, count: u32) -> Option<Vec<u32>> {
    let mut controls = Vec::new(alloc);
    for number in 0..count.min(300) {
        controls.push(0x10 + number).ok()?;
    }
    Some(controls)
}
