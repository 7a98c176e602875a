// An index of a file's records by the keys that they name, and the next record that names a key.
ghost use Rattle.std.specs.Prelude.{◌≡◌, true, ℕ, ◌*◌, ◌≤◌, ◌<◌, length, drop};
ghost use Rattle.keys.specs.Look.{Sound};
ghost use Rattle.keys.specs.Places.{Leads};
ghost use Rattle.sorting.specs.Places.{Next, Late, weight_of, Filled, Sorted, Indexed};

use crate::heap::sort;
use crate::numbers::{number_at, put_number};
use crate::order::{ascending, first_from};
use keys::look::look_at;

// The number of the record at p, which names the key.
fn weight(key: u64, p: usize) -> usize
    requires { (key < 549755813888) × (p ≤ 16777216) }
    ensures { result ≡ weight_of key p }
{
    (key as usize) * 16777216 + p
}

// How many records there are from us on.
fn count(u: &[u8], us: usize) -> usize
    requires { Sound u.now us }
    ensures { result ≤ 16777216 }
{
    let mut q = us;
    let mut n = 0;
    while let Some(look) = look_at(u, q) {
        q += look.len;
        n += 1;
    }
    n
}

// Their numbers behind a 0, which are to fill s; whether they do. By the 0 an index is known of which nothing at the front is gone.
fn fill(u: &[u8], us: usize, s: &mut [u8]) -> bool
    requires { Sound u.now us }
    ensures { result ≡ true → (n : ℕ) × Filled u.now us n s.new }
{
    if s.len() < 8 {
        return false;
    }
    put_number(s, 0, 0);
    let mut q = us;
    let mut n = 1;
    while let Some(look) = look_at(u, q) {
        if s.len() < 8 * n + 8 || 549755813888 <= look.key {
            return false;
        }
        put_number(s, n, weight(look.key, q));
        q += look.len;
        n += 1;
    }
    8 * n == s.len()
}

// Makes an index in s; whether it is one.
fn build(u: &[u8], us: usize, s: &mut [u8]) -> bool
    requires { Sound u.now us }
    ensures { result ≡ true → (n : ℕ) × Sorted u.now us n s.new }
{
    if !fill(u, us, s) {
        return false;
    }
    let n = s.len() / 8;
    if ascending(s, n) {
        return true;
    }
    sort(s, n);
    ascending(s, n)
}

// Makes an index at the end of out; where it begins, which is out's end where there is no room for it: an
// index of nothing.
pub fn lay(u: &[u8], us: usize, out: &mut [u8]) -> usize
    requires { Sound u.now us }
    ensures { (result ≤ length out.new) × Indexed u.now us (drop result out.new) }
{
    let room = 8 * count(u, us) + 8;
    if out.len() < room {
        return out.len();
    }
    let at = out.len() - room;
    if build(u, us, &mut out[at..]) {
        return at;
    }
    out.len()
}

// The next record from p on that names the key, by a plain walk.
fn next_plain(u: &[u8], p: usize, key: u64) -> usize
    requires { Sound u.now p }
    ensures { Next u.now key p result }
{
    let mut q = p;
    while let Some(look) = look_at(u, q) {
        if look.key == key {
            return q;
        }
        q += look.len;
    }
    q
}

// The same by an index of the records from us on, where there is one; p is one of them. Numbers below its first may be gone.
pub fn next(u: &[u8], us: usize, index: &[u8], p: usize, key: u64) -> usize
    requires { Sound u.now us × Leads u.now us p × Indexed u.now us index.now }
    ensures { Next u.now key p result }
{
    let n = index.len() / 8;
    if n == 0 || key == 0 || 549755813888 <= key {
        return next_plain(u, p, key);
    }
    let low = weight(key, 0);
    if low + p < number_at(index, 0) {
        return next_plain(u, p, key);
    }
    let i = first_from(index, n, low + p);
    if n <= i {
        return u.len();
    }
    let x = number_at(index, i);
    if low + 16777216 <= x {
        return u.len();
    }
    x - low
}

// One of the records from us on that names the key, by an index the last of them; us where there is no index or none is found.
pub fn late(u: &[u8], us: usize, index: &[u8], key: u64) -> usize
    requires { Sound u.now us × Indexed u.now us index.now }
    ensures { Late u.now us key result }
{
    let n = index.len() / 8;
    if n == 0 || key == 0 || 549755813888 <= key {
        return us;
    }
    let low = weight(key, 0);
    let i = first_from(index, n, low + 16777216);
    if i == 0 {
        return us;
    }
    let x = number_at(index, i - 1);
    if x < low {
        return us;
    }
    x - low
}
