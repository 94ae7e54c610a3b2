pub mod picking;

use crate::numbers::Numbers;

// At most nine positions.
#[derive(Clone, Copy)]
pub struct Pool {
    list: Numbers<9>,
}
