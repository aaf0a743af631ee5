// Where the regions of the walk's work area stand (specs/Area.antt).

ghost use Rattle.std.specs.Prelude.{◌≡◌, ◌+◌, ◌*◌, ◌<◌, ◌^◌};
ghost use Rattle.turn_walk.specs.Area.{rows_at, runs_at, own_links_at, far_links_at, heads_at, queue_at, colours_at};

// So many regions have a word for each use, and so many a word for each row.
const USE_REGIONS: usize = 5;

const ROW_REGIONS: usize = 5;

// The regions of a walk over so many uses and rows: first uses, rows, runs, links at the own row and links at the first use's row have a word for each use;
// heads of the chains, the queue, colours, where vertices and where indices start have a word for each row. First uses stand at 0.
#[derive(Clone, Copy)]
pub struct Regions {
    pub uses: usize,
    pub rows: usize,
    ghost fits: { 5 * uses + 5 * rows < 2 ^ 64 },
}

impl Regions {
    // Where the rows of the uses stand.
    pub fn use_rows(self) -> usize
        ensures { result ≡ rows_at self.uses }
    {
        self.uses
    }

    // Where their runs stand.
    pub fn runs(self) -> usize
        ensures { result ≡ runs_at self.uses }
    {
        2 * self.uses
    }

    // Where the links stand that lead on at a use's own row.
    pub fn own_links(self) -> usize
        ensures { result ≡ own_links_at self.uses }
    {
        3 * self.uses
    }

    // Where those stand that lead on at the first use's row.
    pub fn far_links(self) -> usize
        ensures { result ≡ far_links_at self.uses }
    {
        4 * self.uses
    }

    // Where each row's link to its first pair stands.
    pub fn heads(self) -> usize
        ensures { result ≡ heads_at self.uses }
    {
        USE_REGIONS * self.uses
    }

    // Where the rows that a walk has found stand.
    pub fn queue(self) -> usize
        ensures { result ≡ queue_at self.uses self.rows }
    {
        self.heads() + self.rows
    }

    // Where the colours stand.
    pub fn colours(self) -> usize
        ensures { result ≡ colours_at self.uses self.rows }
    {
        self.heads() + 2 * self.rows
    }

    // Where it stands for each row where its vertices start.
    pub fn vertex_bases(self) -> usize
        ensures { result ≡ 5 * self.uses + 3 * self.rows }
    {
        self.heads() + 3 * self.rows
    }

    // Where it stands for each row where its indices start.
    pub fn index_bases(self) -> usize
        ensures { result ≡ 5 * self.uses + 4 * self.rows }
    {
        self.heads() + 4 * self.rows
    }

    // Where the last region ends.
    pub fn end(self) -> usize
        ensures { result ≡ 5 * self.uses + 5 * self.rows }
    {
        self.heads() + ROW_REGIONS * self.rows
    }
}
