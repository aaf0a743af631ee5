// Rows joined by shell: the first row of each row's shell.

ghost use Rattle.turn_pairs.specs.Laid.{ShellsRoom, ShellsListed, ShellsReady, ShellsJoined};

// Word `at` + k becomes the shell number of row k.
fn list_shells(rows: &[u32], w: &mut [u64], at: usize)
    requires { ShellsRoom rows.now w.old at }
    ensures { ShellsListed rows.now at w.old w.new }
{
    let m = body_rows::row_count(rows);
    for k in 0..m {
        w[at + k] = body_rows::shell(rows, k) as u64;
    }
}

// The rows are joined by shell: behind their shell numbers at `at` comes for each the first row of its shell.
pub fn join_shells(rows: &[u32], w: &mut [u64], at: usize)
    requires { ShellsReady rows.now w.old at }
    ensures { ShellsJoined rows.now at w.old w.new }
{
    let m = body_rows::row_count(rows);
    list_shells(rows, w, at);
    join_points::words::join_words_at(w, at, m);
}
