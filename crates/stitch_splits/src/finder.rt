// Where finding splits looks.

// What finding splits asks: the sag and a squared distance beyond it, and where names, loose vertices, entries, parameters and flags stand; the words of the
// loose vertices in the order of the search, and the boxes of their blocks, whose tree has that height.
#[derive(Clone, Copy)]
pub struct Finder {
    pub sag: f64,
    pub beyond: f64,
    pub v: usize,
    pub list: usize,
    pub count: usize,
    pub at: usize,
    pub ts: usize,
    pub flags: usize,
    pub order: usize,
    pub boxes: usize,
    pub top: u32,
}
