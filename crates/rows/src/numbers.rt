ghost use Rattle.std.specs.Prelude.{◌≤◌};

pub mod filling;

// At most N numbers, in their order.
// An array and its length: lists are `Copy`, which ArrayVec is not, and a Vec could fail for want of memory.
#[derive(Clone, Copy)]
pub struct Numbers<const N: usize> {
    at: [i64; N],
    len: usize,
    ghost few: { len ≤ N },
}
