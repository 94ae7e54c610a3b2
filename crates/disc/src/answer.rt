use lowest::reduce::RationalPoint;

// The smallest disc: without any point, or by its centre.
// An enum of its own: the empty disc is a rival, and an Option's None would read as no rival.
#[derive(Clone, Copy)]
pub enum DiscAnswer {
    Empty,
    Centre(RationalPoint),
}
