// The smallest sum of squares of some rows, with the lowest and the highest bin that share it.

ghost use Rattle.std.specs.Prelude.{◌≡◌};
ghost use Rattle.peg_search.specs.Search.{best_with, no_best};

use peg_distance::BEYOND;

// The smallest sum of squares, `BEYOND` if no vertex is near, and the lowest and the highest bin that have it.
#[derive(Clone, Copy)]
pub struct Best {
    pub square: u64,
    pub low: u32,
    pub high: u32,
}

// That of no rows.
pub fn no_best() -> Best
    ensures { result ≡ no_best }
{
    Best {
        square: BEYOND,
        low: 0,
        high: 0,
    }
}

// That of some rows and of one more, whose bin comes as near as `square`.
pub fn best_with(best: Best, square: u64, bin: u32) -> Best
    ensures { result ≡ best_with best square bin }
{
    if square < best.square {
        return Best {
            square,
            low: bin,
            high: bin,
        };
    }
    if best.square < square {
        return best;
    }
    if bin < best.low {
        return Best {
            square,
            low: bin,
            high: best.high,
        };
    }
    if best.high < bin {
        return Best {
            square,
            low: best.low,
            high: bin,
        };
    }
    best
}
