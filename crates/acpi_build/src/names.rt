ghost use Rattle.std.specs.Prelude.{◌≡◌};
ghost use Rattle.acpi_build.specs.Names.{segment_of};

use aml_data::Seg;

/// The names that are looked for below a device or a processor (ACPI 6.5, 5.6.8).
#[derive(Clone, Copy)]
pub(crate) enum Name {
    Hid,
    Lpi,
    Cst,
    Csd,
    Pss,
    Pct,
    Ppc,
    Psd,
    Tss,
    Ptc,
    Tpc,
    Tsd,
    Cpc,
}

impl Name {
    /// Its segment.
    pub(crate) fn segment(self) -> Seg
        ensures { result ≡ segment_of self }
    {
        match self {
            Name::Hid => Seg::of_segment(*b"_HID"),
            Name::Lpi => Seg::of_segment(*b"_LPI"),
            Name::Cst => Seg::of_segment(*b"_CST"),
            Name::Csd => Seg::of_segment(*b"_CSD"),
            Name::Pss => Seg::of_segment(*b"_PSS"),
            Name::Pct => Seg::of_segment(*b"_PCT"),
            Name::Ppc => Seg::of_segment(*b"_PPC"),
            Name::Psd => Seg::of_segment(*b"_PSD"),
            Name::Tss => Seg::of_segment(*b"_TSS"),
            Name::Ptc => Seg::of_segment(*b"_PTC"),
            Name::Tpc => Seg::of_segment(*b"_TPC"),
            Name::Tsd => Seg::of_segment(*b"_TSD"),
            Name::Cpc => Seg::of_segment(*b"_CPC"),
        }
    }
}
