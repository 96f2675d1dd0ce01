// The paths in the order of the parts: by depth, then number.
ghost use Rattle.std.specs.Prelude.{◌≡◌, []};
ghost use Rattle.std.specs.Iterator.{YieldsFirst, item_count};
ghost use Rattle.handed.specs.Plan.{order_in};
ghost use Rattle.handed.specs.Order.{coming};

use files::sets;
use reachable::sheet::Sheet;

// The paths of a layer that are still to come, the child paths of those that have come, and how many layers are left below.
#[derive(Drop)]
pub(crate) struct Order<'a> {
    sheet: &'a Sheet,
    layer: u64,
    below: u64,
    left: usize,
}

impl<'a> Order<'a> {
    pub(crate) fn new(sheet: &'a Sheet) -> Order<'a>
        ensures { coming result ≡ order_in sheet.now }
    {
        Order {
            sheet,
            layer: sets::with(0, 0),
            below: 0,
            left: 7,
        }
    }

    // On to the next layer, where no path of this one is to come.
    fn descend(&mut self)
        ensures same { coming self.new ≡ coming self.old }
        ensures done { self.new.layer ≡ 0 → coming self.new ≡ [] }
    {
        if self.layer == 0 && self.left != 0 {
            self.layer = self.below;
            self.below = 0;
            self.left -= 1;
        }
    }
}

impl Iterator for Order<'_> {
    type Item = usize;

    ghost next_gives = { YieldsFirst coming };

    ghost remaining = { item_count coming };

    fn next(&mut self) -> Option<usize> {
        self.descend();
        if self.layer == 0 {
            return None;
        }
        let path = sets::lowest(self.layer);
        self.layer = sets::without_lowest(self.layer);
        self.below = sets::union(self.below, self.sheet.children(path));
        Some(path)
    }
}
