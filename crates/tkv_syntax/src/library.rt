//! The library: what `use std;` declares.

/// The routines of the library. If a source uses the library, this text follows the source.
pub const LIBRARY: &str = "\
fn mul(a, b) -> m {
    let m = 0;
    while b != 0 max 16 {
        if b % 2 != 0 { m = m + a; }
        a = a + a;
        b = b >> 1;
    }
    return m;
}
fn div(a, b) -> m? {
    let c = b;
    assert c != 0;
    let m = 0;
    if a >= c {
        while a - c >= c max 15 { c = c + c; }
        while c >= b max 16 {
            m = m + m;
            if a >= c { a = a - c; m = m + 1; }
            c = c >> 1;
        }
    }
    return m;
}
fn rem(a, b) -> m? {
    let c = b;
    assert c != 0;
    if a >= c {
        while a - c >= c max 15 { c = c + c; }
        while c >= b max 16 {
            if a >= c { a = a - c; }
            c = c >> 1;
        }
    }
    return a;
}
fn and(a, b) -> m {
    let m = 0;
    let c = 32768;
    while a != 0 max 16 {
        if a >= c {
            a = a - c;
            if b >= c { b = b - c; m = m + c; }
        } else if b >= c { b = b - c; }
        c = c >> 1;
    }
    return m;
}
fn or(a, b) -> m { let m = and(a, b); return a + b - m; }
fn xor(a, b) -> m { let m = and(a, b); return a + b - m - m; }
fn not(a) -> m { return 65535 - a; }
";
