ghost use Rattle.std.specs.Prelude.{◌≡◌, ◌^◌, length};
ghost use Rattle.rows.specs.List.{positions};
ghost use Rattle.rows.specs.Pool.{pooled, inserted, chosen, Made};

use crate::numbers::Numbers;
use crate::positions::Positions;
use crate::positions::pool::Pool;

impl Positions {
    // These positions and h, in rising order: whatever is not below h moves one place up.
    // One pass is plainer here than a search for the place and an insertion there.
    pub fn with(&self, h: i64) -> Pool
        ensures { pooled result ≡ inserted h (positions self.now) }
    {
        let mut list = Numbers::empty();
        let mut next = h;
        for p in self.as_slice() {
            list.push(next.min(*p));
            next = next.max(*p);
        }
        list.push(next);
        Pool { list }
    }
}

impl Pool {
    pub fn as_slice(&self) -> &[i64]
        ensures { result.now ≡ pooled self.now }
    {
        self.list.as_slice()
    }

    // How many masks there are.
    pub fn choices(&self) -> u16
        ensures { result ≡ 2 ^ length (pooled self.now) }
    {
        1 << self.list.len()
    }

    // The positions whose bit of the mask is set.
    fn gather(&self, mask: u16) -> Pool
        ensures { pooled result ≡ chosen (pooled self.now) mask }
    {
        let mut list = Numbers::empty();
        let mut rest = mask;
        for &p in self.as_slice() {
            if rest % 2 == 1 {
                list.push(p);
            }
            rest /= 2;
        }
        Pool { list }
    }

    // The same as a list, unless they are more than eight or do not rise.
    pub fn pick(&self, mask: u16) -> Option<Positions>
        ensures { Made (chosen (pooled self.now) mask) result }
    {
        Positions::try_from(self.gather(mask).as_slice()).ok()
    }
}
