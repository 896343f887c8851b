// Whole numbers that do not overflow, and division rounded as the rules ask.
#![tactic(auto)]

ghost use Rattle.std.specs.Prelude.{◌≡◌, ◌+◌, ◌*◌, ◌≤◌, pos, ◌+ℤ◌, ◌*ℤ◌, ◌≤ℤ◌, unsigned_abs};
ghost use Rattle.number.specs.Rounding.{ceiling, floor, nearest};

// Rounded down. For the crates above.
pub fn floor_div(a: i64, d: i64) -> i64
    requires { pos 1 ≤ℤ d }
    ensures { result ≡ floor a (unsigned_abs d) }
{
    a.div_euclid(d)
}

// Rounded up. For the crates above.
pub fn ceil_div(a: i64, d: i64) -> i64
    requires least { pos 1 ≤ℤ d }
    requires small { unsigned_abs a ≤ 4000000000000000000 }
    ensures { result ≡ ceiling a (unsigned_abs d) }
{
    -floor_div(-a, d)
}

// Twice a number and a half of 2 × d: what is rounded down to round to the nearest.
fn half_up(a: i64, d: i64) -> i64
    requires most { unsigned_abs d ≤ 1000000000 }
    requires small { unsigned_abs a ≤ 4000000000000000000 }
    ensures { result ≡ pos 2 *ℤ a +ℤ d }
{
    2 * a + d
}

// Rounded to the nearest, halves upward. For the crates above.
pub fn nearest_div(a: i64, d: i64) -> i64
    requires least { pos 1 ≤ℤ d }
    requires most { d ≤ℤ pos 1000000000 }
    requires small { unsigned_abs a ≤ 4000000000000000000 }
    ensures { result ≡ nearest a (unsigned_abs d) }
{
    floor_div(half_up(a, d), 2 * d)
}

// A weight times an entry. For the crates above.
pub fn weighed(weight: u16, entry: i64) -> i64
    requires light { weight ≤ 1000 }
    requires small { unsigned_abs entry ≤ 2000000000 }
    ensures value { result ≡ pos weight *ℤ entry }
    ensures size { unsigned_abs result ≡ weight * unsigned_abs entry }
{
    i64::from(weight) * entry
}

// For the crates above.
pub fn sum_of_five(a: i64, b: i64, c: i64, d: i64, e: i64) -> i64
    requires { unsigned_abs a + (unsigned_abs b + (unsigned_abs c + (unsigned_abs d + unsigned_abs e))) ≤ 1000000000000000000 }
    ensures value { result ≡ a +ℤ (b +ℤ (c +ℤ (d +ℤ e))) }
    ensures size { unsigned_abs result ≤ unsigned_abs a + (unsigned_abs b + (unsigned_abs c + (unsigned_abs d + unsigned_abs e))) }
{
    a + (b + (c + (d + e)))
}
