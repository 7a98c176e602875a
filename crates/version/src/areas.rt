// The areas of the workspace, lent to be read.
ghost use Rattle.std.specs.Prelude.{◌≡◌, ◌-◌, ◌≤◌, length, take, drop};
ghost use Rattle.version.specs.Areas.{list_area, inas_area, spas_area};

// The bytes from `from` to `to`. The ends are not numbers here, which a proof about a part of a slice would count.
pub fn part(s: &[u8], from: usize, to: usize) -> &[u8]
    requires { (from ≤ to) × (to ≤ length s.now) }
    ensures { result.now ≡ take (to - from) (drop from s.now) }
{
    &s[from..to]
}

// The attributes, or the coordinates.
pub fn list_of(work: &[u8]) -> &[u8]
    requires { 400000 ≤ length work.now }
    ensures { result.now ≡ list_area work.now }
{
    part(work, 0, 200000)
}

// The associations with information types.
pub fn inas_of(work: &[u8]) -> &[u8]
    requires { 400000 ≤ length work.now }
    ensures { result.now ≡ inas_area work.now }
{
    part(work, 200000, 292000)
}

// The spatial associations.
pub fn spas_of(work: &[u8]) -> &[u8]
    requires { 400000 ≤ length work.now }
    ensures { result.now ≡ spas_area work.now }
{
    part(work, 292000, 386000)
}
