//! How much there is to do along the rows of some vertices.
ghost use Rattle.std.specs.Prelude.{◌≡◌, ◌<◌, ◌≤◌, ◌^◌, length, All};
ghost use Rattle.jul_base.specs.Graph.{vertices};
ghost use Rattle.jul_rows.specs.Reach.{reach};

use crate::out_rows::Rows;

/// The members and their places, counted: the work of a round that walks their rows.
pub fn reach_of(rows: &Rows, members: &[u32]) -> u64
    requires few { length members.now ≤ 2 ^ 24 }
    requires vertices { All (λ u. u < vertices rows.now) members.now }

    ensures { result ≡ reach rows.now members.now }
{
    let mut reach = members.len() as u64;
    for u in members {
        reach += u64::from(rows.degree(*u));
    }
    reach
}
