// E(m) and F(m), the real and the imaginary part of (u + iv)^m: two functions that call each other with the order falling.

#![tactic(auto)]

ghost use Rattle.std.specs.Prelude.{◌≡◌, ◌%◌};
ghost use Rattle.powers.specs.Powers.{power, next, powers};

use doubles::Complex;

// Both of an order, from both of the order before.
fn next_of(p: Complex, u: f64, v: f64) -> Complex
    ensures { result ≡ next p u v }
{
    Complex {
        re: u * p.re - v * p.im,
        im: u * p.im + v * p.re,
    }
}

// Both of an even order.
#[cycle(even_power_odd_power)]
fn even_power(m: u8, u: f64, v: f64) -> Complex
    requires { m % 2 ≡ 0 }
    ensures { result ≡ power m u v }
{
    if m == 0 {
        Complex { re: 1.0, im: 0.0 }
    } else {
        next_of(odd_power(m - 1, u, v), u, v)
    }
}

// Both of an odd order.
#[cycle(even_power_odd_power)]
fn odd_power(m: u8, u: f64, v: f64) -> Complex
    requires { m % 2 ≡ 1 }
    ensures { result ≡ power m u v }
{
    next_of(even_power(m - 1, u, v), u, v)
}

// E and F of the orders 0 to 3, each worked out once from the one before.
pub fn powers_of(u: f64, v: f64) -> [Complex; 4]
    ensures { result ≡ powers u v }
{
    let p0 = even_power(0, u, v);
    let p1 = odd_power(1, u, v);
    let p2 = next_of(p1, u, v);
    let p3 = next_of(p2, u, v);
    [p0, p1, p2, p3]
}
