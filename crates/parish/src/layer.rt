mod counting;
mod problem;

ghost use Rattle.std.specs.Prelude.{◌≡◌};
ghost use Rattle.parish.specs.Making.{LayerMade};

use rows::refusal::Refusal;
use rows::row::is_parish;

// A problem over the rows of one parish.
#[derive(Drop)]
pub struct Parish<P> {
    below: P,
    parish: u8,
}

// Why no layer was made, and the problem that it was to stand on.
#[derive(Drop)]
pub struct Unmade<P> {
    pub refusal: Refusal,
    pub below: P,
}

impl<P> Parish<P> {
    // The layer of a parish from 1 to 16.
    pub fn new(below: P, parish: u8) -> Result<Parish<P>, Unmade<P>>
        ensures { LayerMade below parish result }
    {
        if !is_parish(parish) {
            return Err(Unmade {
                refusal: Refusal::ParishRange,
                below,
            });
        }
        Ok(Parish { below, parish })
    }

    // The problem that the layer stands on, and its parish.
    pub fn into_parts(self) -> (P, u8)
        ensures { result ≡ (self.below, self.parish) }
    {
        let Parish { below, parish } = self;
        (below, parish)
    }
}
