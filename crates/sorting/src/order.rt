// Numbers in order: found out, and searched by halves.
ghost use Rattle.std.specs.Prelude.{◌≡◌, ◌*◌, ◌≤◌, length};
ghost use Rattle.sorting.specs.Numbers.{Ascends, rises, Parted};

use crate::numbers::number_at;

// Whether none of the first n numbers is below the one before it.
pub fn ascending(s: &[u8], n: usize) -> bool
    requires { 8 * n ≤ length s.now }
    ensures { result ≡ rises n s.now }
{
    let mut last = 0;
    for i in 0..n {
        let x = number_at(s, i);
        if x < last {
            return false;
        }
        last = x;
    }
    true
}

// The place of the first of the first n numbers that is not below w; n where all are: a place between them, as
// `partition_point` answers.
pub fn first_from(s: &[u8], n: usize, w: usize) -> usize
    requires { (8 * n ≤ length s.now) × Ascends n s.now }
    ensures { Parted n s.now w result }
{
    let mut lo = 0;
    let mut hi = n;
    while lo < hi {
        let mid = lo + (hi - lo) / 2;
        if number_at(s, mid) < w {
            lo = mid + 1;
        } else {
            hi = mid;
        }
    }
    lo
}
