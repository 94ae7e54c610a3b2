ghost use Rattle.lowest.specs.Reduced.{LowestTerms};

use crate::vertex::Vertex;
use lowest::reduce::{RationalPoint, reduce};

impl Vertex {
    // The same point in lowest terms.
    pub fn reduced(self) -> RationalPoint
        ensures { LowestTerms self.x self.y self.d result.x result.y result.d }
    {
        reduce(self.x, self.y, self.d)
    }
}
