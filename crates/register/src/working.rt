mod calls;

use crate::contents::Contents;

// A register that takes rows. It cannot be copied; `new` makes one, and `reopen` of a settled one gives it back.
// That its rows are admitted and its basis stands (`Good`) speaks of the problem: by a rule of the project each call asks it.
#[derive(Drop)]
pub struct Working<P> {
    pub(crate) problem: P,
    pub(crate) contents: Contents,
}
