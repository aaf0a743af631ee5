// The entries of a body's audit written to the lent face list.

ghost use Rattle.std.specs.Prelude.{◌*◌, take, drop};
ghost use mathlib.Core.List.{flat_map};
ghost use Rattle.slice_append.specs.Appended.{Appended};
ghost use Rattle.report_definition.specs.Report.{entry_width};
ghost use Rattle.report.specs.Listing.{ListReady, word_numbers};

use report_audit::COUNT_UNIT;
use slice_append::put;

// How many numbers an entry has: face number and count.
pub const ENTRY_WIDTH: usize = 2;

// The numbers of r entries, whose words stand from `at` on, are written to the list behind its first entries, of which there are `listed`.
pub fn write_entries(w: &[u64], at: usize, r: usize, list: &mut [u32], listed: usize)
    requires { ListReady w.now at r list.old listed }
    ensures { Appended (entry_width * listed) (flat_map word_numbers (take r (drop at w.now))) list.old list.new }
{
    for k in 0..r {
        let x = w[at + k];
        put(
            list,
            ENTRY_WIDTH * (listed + k),
            &[(x % COUNT_UNIT) as u32, (x / COUNT_UNIT) as u32],
        );
    }
}
