// The best subtree for a name.
ghost use Rattle.std.specs.Prelude.{◌≡◌, map};
ghost use Rattle.handlers.specs.Best.{best, depth};

use crate::registry::Row;
use setting_name::{Name, count_of_parts};

/// The place of the row whose subtree matches the name with the most parts; the first of several.
pub(crate) fn best_row<B>(rows: &[Row<B>], name: &Name) -> Option<usize>
    ensures { result ≡ best (map (λ row. row.subtree) rows.now) name.now }
{
    let mut best = None;
    let mut most = 0;
    let mut i = 0;
    while i < rows.len() {
        let depth = depth_of(name, &rows[i].subtree);
        if depth > most {
            most = depth;
            best = Some(i);
        }
        i += 1;
    }
    best
}

fn depth_of(name: &Name, subtree: &Name) -> usize
    ensures { result ≡ depth name.now subtree.now }
{
    match Name::matches(name, subtree) {
        Some(_) => count_of_parts(subtree.bytes()),
        None => 0,
    }
}
