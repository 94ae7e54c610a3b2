use lowest::reduce::RationalPoint;

// The cheapest point, or none. By a rule of the project answers are enums; each has a line of its own in a listing, as no Option has.
#[derive(Clone, Copy)]
pub enum PlaneAnswer {
    NoPoint,
    Point(RationalPoint),
}
