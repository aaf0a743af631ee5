// The accepted share as a reduced fraction.

ghost use Rattle.std.specs.Prelude.{◌≡◌};
ghost use Rattle.report_definition.specs.Divisor.{gcd};
ghost use Rattle.report_definition.specs.Page.{share_of};
ghost use Rattle.report_page.specs.Shares.{share_in};

// So many accepted of so many faces.
#[derive(Clone, Copy)]
pub struct Share {
    pub accepted: u64,
    pub faces: u64,
}

// The greatest common divisor, by Euclid's algorithm.
fn gcd(a: u64, b: u64) -> u64
    ensures { result ≡ gcd a b }
{
    let mut x = a;
    let mut y = b;
    while y != 0 {
        let left = x % y;
        x = y;
        y = left;
    }
    x
}

// The accepted share, reduced; 1/1 for no faces.
pub fn share_of(accepted: u64, faces: u64) -> Share
    ensures { share_in result ≡ share_of accepted faces }
{
    if faces == 0 {
        return Share {
            accepted: 1,
            faces: 1,
        };
    }
    let d = gcd(accepted, faces);
    Share {
        accepted: accepted / d,
        faces: faces / d,
    }
}
