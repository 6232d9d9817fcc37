// The caller knows k to be at most 22.
ghost use Rattle.std.specs.Prelude.{◌≡◌, ◌≤◌};
ghost use Rattle.refusal.specs.Long.{MAX-LEN};
ghost use Rattle.table_pad.specs.Height.{padded_height};

use crate::table_height;

// The rows of the padded table: 2^k or, where k is 0, as many as the trace needs.
pub fn padded_height(log2_height: usize, rows: usize) -> usize
    requires { log2_height ≤ 22 }
    ensures { (result ≡ padded_height log2_height rows) × (2 ≤ result) × (result ≤ MAX-LEN) }
{
    if log2_height == 0 {
        return table_height(rows);
    }
    1 << log2_height
}
