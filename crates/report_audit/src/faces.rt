// Rows joined by face number: the first row of each row's face.

ghost use Rattle.report_audit.specs.Faces.{FacesReady, FacesListed, FacesJoined};

// Word `at` + k becomes the face number of row k.
fn list_faces(rows: &[u32], w: &mut [u64], at: usize)
    requires { FacesReady rows.now w.old at }
    ensures { FacesListed rows.now at w.old w.new }
{
    let m = body_rows::row_count(rows);
    for k in 0..m {
        w[at + k] = body_rows::face(rows, k) as u64;
    }
}

// The rows are joined by face number: behind the numbers at `at` comes for each row the first of its number.
pub fn join_faces(rows: &[u32], w: &mut [u64], at: usize)
    requires { FacesReady rows.now w.old at }
    ensures { FacesJoined rows.now at w.old w.new }
{
    let m = body_rows::row_count(rows);
    list_faces(rows, w, at);
    join_points::words::join_words_at(w, at, m);
}
