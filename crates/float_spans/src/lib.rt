// A span of f64 values: what is computed from a value of it lies in the span that is computed from its ends.
#![tactic(auto)]

ghost use Rattle.std.specs.Prelude.{◌≡◌};
ghost use Rattle.std.specs.Float.{binary64};
ghost use Rattle.float_spans.specs.Spans.{less, plus, minus, over, lower, higher, times, least_square, nearest_to_zero};
ghost use Rattle.float_spans.specs.Hulls.{empty, one, hull};

use std::ops::{Add, Div, Mul, Sub};

// The values from low up to high.
#[derive(Clone, Copy)]
pub struct Span {
    pub low: f64,
    pub high: f64,
}

// The lower of two.
fn lower_of(a: f64, b: f64) -> f64
    ensures { result ≡ lower a b }
{
    if a < b {
        return a;
    }
    b
}

// The higher of two.
fn higher_of(a: f64, b: f64) -> f64
    ensures { result ≡ higher a b }
{
    if a > b {
        return a;
    }
    b
}

impl Span {
    // The span of nothing.
    pub fn empty() -> Span
        ensures { result ≡ empty }
    {
        let infinite = 1.0 / 0.0;
        Span {
            low: infinite,
            high: -infinite,
        }
    }

    // The span of one value.
    pub fn one(x: f64) -> Span
        ensures { result ≡ one x }
    {
        Span { low: x, high: x }
    }

    // The least span that holds what this or the other holds.
    pub fn hull(self, o: Span) -> Span
        ensures { result ≡ hull self o }
    {
        Span {
            low: lower_of(self.low, o.low),
            high: higher_of(self.high, o.high),
        }
    }

    // The float of the span that is nearest to 0.
    fn nearest_to_zero(self) -> f64
        ensures { result ≡ nearest_to_zero self }
    {
        if self.low > 0.0 {
            return self.low;
        }
        if self.high < 0.0 {
            return self.high;
        }
        0.0
    }

    // What x * x is not below for x in the span: one float is chosen and then squared, so that there is no jump to foresee.
    pub fn least_square(self) -> f64
        ensures { result ≡ least_square binary64 self }
    {
        let x = self.nearest_to_zero();
        x * x
    }
}

// x - c for x in the span.
impl Sub<f64> for Span {
    type Output = Span;

    ghost sub_gives = { λ x c r. r ≡ less binary64 x c };

    fn sub(self, c: f64) -> Span {
        Span {
            low: self.low - c,
            high: self.high - c,
        }
    }
}

// x + y for x in the span and y in the other.
impl Add for Span {
    type Output = Span;

    ghost add_gives = { λ x y r. r ≡ plus binary64 x y };

    fn add(self, o: Span) -> Span {
        Span {
            low: self.low + o.low,
            high: self.high + o.high,
        }
    }
}

// x - y for x in the span and y in the other.
impl Sub for Span {
    type Output = Span;

    ghost sub_gives = { λ x y r. r ≡ minus binary64 x y };

    fn sub(self, o: Span) -> Span {
        Span {
            low: self.low - o.high,
            high: self.high - o.low,
        }
    }
}

// x / c for x in the span.
impl Div<f64> for Span {
    type Output = Span;

    ghost div_gives = { λ x c r. r ≡ over binary64 x c };

    fn div(self, c: f64) -> Span {
        Span {
            low: self.low / c,
            high: self.high / c,
        }
    }
}

// x * c for x in the span.
impl Mul<f64> for Span {
    type Output = Span;

    ghost mul_gives = { λ x c r. r ≡ times binary64 x c };

    fn mul(self, c: f64) -> Span {
        let a = self.low * c;
        let b = self.high * c;
        Span {
            low: lower_of(a, b),
            high: higher_of(a, b),
        }
    }
}
