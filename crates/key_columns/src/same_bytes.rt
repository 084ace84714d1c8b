//! Whether two texts are one.
ghost use Rattle.std.specs.Prelude.{◌≡◌, ◌≤◌, ◌*◌, length, true};

#[inline(always)]
fn are_same_arrays<const N: usize>(one: &[u8; N], other: &[u8; N]) -> bool
    ensures same { result ≡ true → one.now ≡ other.now }
    ensures apart { one.now ≡ other.now → result ≡ true }
{
    one == other
}

/// Whether texts of one length have the same first `N` bytes and the same last `N`, of which they
/// have at most twice as many.
#[inline(always)]
fn have_same_ends<const N: usize>(one: &[u8], other: &[u8]) -> bool
    requires few { N ≤ 8 }
    requires long { length one.now ≡ length other.now }
    requires enough { N ≤ length one.now }
    requires short { length one.now ≤ 2 * N }
    ensures same { result ≡ true → one.now ≡ other.now }
    ensures apart { one.now ≡ other.now → result ≡ true }
{
    let Some(first) = one.first_chunk::<N>() else {
        return false;
    };
    let Some(other_first) = other.first_chunk::<N>() else {
        return false;
    };
    let Some(last) = one.last_chunk::<N>() else {
        return false;
    };
    let Some(other_last) = other.last_chunk::<N>() else {
        return false;
    };
    if !are_same_arrays(first, other_first) {
        return false;
    }
    are_same_arrays(last, other_last)
}

/// Whether two texts are one. Short ones are compared by their ends, so that no loop goes over
/// their bytes.
#[inline(always)]
pub fn are_same_bytes(one: &[u8], other: &[u8]) -> bool
    ensures same { result ≡ true → one.now ≡ other.now }
    ensures apart { one.now ≡ other.now → result ≡ true }
{
    let many = one.len();
    if many != other.len() {
        return false;
    }
    if many < 4 {
        return one == other;
    }
    if many < 8 {
        return have_same_ends::<4>(one, other);
    }
    if many <= 16 {
        return have_same_ends::<8>(one, other);
    }
    one == other
}
