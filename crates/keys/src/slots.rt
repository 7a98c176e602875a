// A map of the keys that can be named, in flags.
ghost use Rattle.std.specs.Prelude.{◌≡◌};
ghost use Rattle.keys.specs.Slots.{slot_in, noted};

use crate::bits::raise;

// The place of a key; none where its RCID is too large for its kind's part of the map, or its kind has none.
pub fn slot(k: u64) -> Option<usize>
    ensures { result ≡ slot_in k }
{
    let rcid = (k % 4294967296) as usize;
    match k / 4294967296 {
        1 if rcid < 65536 => Some(rcid),
        2 if rcid < 131072 => Some(65536 + rcid),
        3 if rcid < 65536 => Some(196608 + rcid),
        _ => None,
    }
}

// One key more.
pub fn note(t: &mut [u8], k: u64)
    ensures { t.new ≡ noted t.old k }
{
    if let Some(s) = slot(k) {
        raise(t, s);
    }
}
