ghost use Rattle.std.specs.Prelude.{◌≡◌, ◌≤◌, ◌<◌, ◌*◌, ◌∷◌, ◌++◌, length, drop};
ghost use Rattle.std.specs.List.{flat_map};
ghost use Rattle.pw_text.specs.Text.{place_text};
ghost use Rattle.pw_embed.specs.Paths.{IsOver};

use aml_data::Seg;

/// Writes a byte and the segment behind it.
fn put_led(lead: u8, seg: &Seg, out: &mut [u8])
    requires { length out.old ≡ 5 }
    ensures { out.new ≡ lead ∷ seg.now }
{
    let [a, b, c, d] = seg.bytes();
    out.copy_from_slice(&[lead, a, b, c, d]);
}

/// Writes segments, each with a dot before it.
fn put_segs(segs: &[Seg], out: &mut [u8])
    requires { 5 * length segs.now ≤ length out.old }
    ensures { out.new ≡ flat_map (λ seg. 46 ∷ seg) segs.now ++ drop (5 * length segs.now) out.old }
{
    if let [first, rest @ ..] = segs {
        let (head, tail) = out.split_at_mut(5);
        put_led(b'.', first, head);
        put_segs(rest, tail);
    }
}

/// How many bytes a path has.
pub fn path_length(segs: &[Seg]) -> usize
    ensures value { result ≡ length (place_text segs.now) }
    ensures counted { 0 < length segs.now → result ≡ 5 * length segs.now }
{
    if segs.is_empty() {
        return 1;
    }
    let mut length = 0;
    for seg in segs {
        length += 1 + seg.bytes().len();
    }
    length
}

/// Writes a path at the front of the room, where there is room for it, and says how long it is.
pub fn write_path(segs: &[Seg], out: &mut [u8]) -> usize
    ensures length { result ≡ length (place_text segs.now) }
    ensures written { IsOver (place_text segs.now) out.old out.new }
{
    let length = path_length(segs);
    if length <= out.len() {
        match segs {
            [] => out[0] = b'\\',
            [first, rest @ ..] => {
                let (head, tail) = out.split_at_mut(5);
                put_led(b'\\', first, head);
                put_segs(rest, tail);
            }
        }
    }
    length
}
