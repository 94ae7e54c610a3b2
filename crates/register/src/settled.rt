mod calls;

use crate::working::Working;
use walk::walking::Counts;

// A register whose filed basis ended a walk. It cannot be copied, or made but by settling a working one.
#[derive(Drop)]
pub struct Settled<P> {
    pub(crate) register: Working<P>,
    pub(crate) counts: Counts,
}
