// The records of the groups: their count, the records above it, and their prices and parents.
ghost use Rattle.std.specs.Prelude.{◌≡◌, ◌<◌};
ghost use Rattle.std.specs.Result.{result_err};
ghost use Rattle.slips.specs.Verdict.{group_good};
ghost use Rattle.slip_check.specs.Tables.{records_fault};
ghost use Rattle.slip_check.specs.Shaped.{view_of};

use crate::shaped::*;
use books::book::CostBook;
use slips::fault::SlipFault;
use slips::slip::*;

impl<'a, B: CostBook> ShapedSlip<'a, B> {
    // Whether the group at place k has its price within its limits, and as parent 0 or a higher group up to the count.
    fn is_good_group(&self, k: usize) -> bool
        requires { k < 127 }
        ensures { result ≡ group_good (view_of self.now) k }
    {
        let record = self.group(k);
        let parent = usize::from(record.parent);
        (1..=MOST_PRICE).contains(&record.price)
            && (parent == 0 || parent > k + 1 && parent <= self.count())
    }

    // The first fault of the count of groups, of the records above it, and of the groups' prices and parents.
    pub(crate) fn check_group_records(&self) -> Result<(), SlipFault>
        ensures { result_err result ≡ records_fault (view_of self.now) }
    {
        let count = self.count();
        // The records as a slice: a search reads where they stand once, and not again for each.
        let groups: &[GroupRecord] = &self.slip.groups;
        unless(count <= GROUPS, SlipFault::Group(0))?;
        (count..GROUPS).try_for_each(|k| unless(
            groups[k] == BLANK_GROUP,
            SlipFault::Group(k + 1),
        ))?;
        (0..count).try_for_each(|k| unless(self.is_good_group(k), SlipFault::Group(k + 1)))
    }
}
