ghost use Rattle.std.specs.List.{AllByRecursion};
ghost use Rattle.aml_data.specs.Segment.{IsSegment};

use aml_data::Seg;

/// Each segment of a path is one.
pub fn segments_known(segs: &[Seg])
    ensures { AllByRecursion IsSegment segs.now }
{
    let mut left = segs;
    while let [seg, rest @ ..] = left {
        let _bytes = seg.bytes();
        left = rest;
    }
}
