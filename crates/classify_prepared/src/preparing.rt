// From rows to prepared halfspaces: the lists of specs/PreparedLists.
ghost use Rattle.std.specs.Prelude.{◌≡◌, ◌*◌, ◌≤◌, ◌<◌, length, get_or, pos, nat_abs};
ghost use Rattle.region.specs.Rows.{halfspace_at};
ghost use Rattle.classify_prepared.specs.Measures as rule;
ghost use Rattle.classify_prepared.specs.PreparedLists.{stored, marked, convexes_of, FitRow, FitRows};

use crate::PreparedHalfspace;
use crate::prepared_region::PreparedRegion;

// The prepared halfspace of a row.
fn prepared_of(row: &[i32; 5]) -> PreparedHalfspace
    requires { FitRow row.now }
    ensures { result ≡ rule.prepared (halfspace_at row.now) }
{
    let h = region_rows::halfspace_at(row, 0);
    let n = h.n;
    crate::prepared(n, h.d)
}

// The number of the convex of a row.
fn convex_of(row: &[i32; 5]) -> usize
    requires { FitRow row.now }
    ensures { (result ≡ nat_abs (get_or row.now 0 (pos 0))) × (result < 64) }
{
    row[0] as usize
}

// The prepared halfspaces of n rows, and the end of each convex. The result is how many convexes there are.
fn prepare_rows(
    rows: &[i32],
    n: usize,
    halfspaces: &mut [PreparedHalfspace],
    ends: &mut [usize],
) -> usize
    requires n_in_bounds { (5 * n ≤ length rows.now) × (n ≤ length halfspaces.old) × (64 ≤ length ends.old) }
    requires fit_rows { FitRows n rows.now }
    ensures halfspaces_after { halfspaces.new ≡ stored 0 n rows.now halfspaces.old }
    ensures ends_after { ends.new ≡ marked 0 n rows.now ends.old }
    ensures convexes { (result ≡ convexes_of 0 n rows.now) × (result ≤ 64) }
{
    let (fives, _) = rows.as_chunks::<5>();
    let mut convexes = 0;
    for (i, row) in fives[..n].iter().enumerate() {
        let k = convex_of(row);
        halfspaces[i] = prepared_of(row);
        ends[k] = i + 1;
        convexes = k + 1;
    }
    convexes
}

// Prepares the halfspaces of n rows to a region, which has room for every accepted file. Places behind its counts stay as they were.
pub fn prepare(rows: &[i32], n: usize, region: &mut PreparedRegion)
    requires n_bound { (n ≤ 512) × (5 * n ≤ length rows.now) }
    requires fit_rows { FitRows n rows.now }
    ensures halfspaces_after { region.new.halfspaces ≡ stored 0 n rows.now region.old.halfspaces }
    ensures ends_after { region.new.ends ≡ marked 0 n rows.now region.old.ends }
    ensures counts { (region.new.count ≡ n) × (region.new.convexes ≡ convexes_of 0 n rows.now) }
    ensures room { (region.new.count ≤ 512) × (region.new.convexes ≤ 64) }
{
    region.convexes = prepare_rows(rows, n, &mut region.halfspaces, &mut region.ends);
    region.count = n;
}

#[cfg(test)]
mod tests {
    use super::*;
    use crate::prepared_region::{ENDS, HalfspaceLists};
    use limits::HALFSPACES;

    // The row of the hemisphere about z, in the first convex.
    const ROW: [i32; 5] = [0, 0, 0, 1048576, 0];

    #[test]
    fn rows_are_prepared_where_any_counts_stood(rt: HostRuntime) {
        let mut region = HalfspaceLists {
            halfspaces: [crate::NO_HALFSPACE; HALFSPACES],
            ends: [0; ENDS],
            count: HALFSPACES + 1,
            convexes: ENDS + 1,
        };
        prepare(&ROW, 1, &mut region);
        assert_eq!(rt; (region.count, region.convexes), (1, 1));
        assert_eq!(rt;
            (region.halfspaces().len(), region.ends()),
            (1, [1].as_slice())
        );
    }
}
