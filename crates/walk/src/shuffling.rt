ghost use Rattle.std.specs.Prelude.{◌≡◌, ◌-◌, ◌<◌, ◌≤◌, length, take};
ghost use Rattle.std.specs.List.{range_with_len};
ghost use Rattle.checking.specs.Filed.{AllBelow, Covers};
ghost use Rattle.walk.specs.Shuffling.{next_seed, swap_place, mixed, shuffled, Permutes};

fn next_seed(seed: u32) -> u32
    ensures { result ≡ next_seed seed }
{
    seed.wrapping_mul(1_664_525).wrapping_add(1_013_904_223)
}

// The place that changes contents with place i.
fn swap_place(seed: u32, i: usize) -> usize
    requires { i < 256 }
    ensures { result ≡ swap_place seed i }
{
    (seed / 65_536) as usize % (i + 1)
}

// Puts the places in rising order.
fn number(order: &mut [usize])
    ensures { order.new ≡ range_with_len 0 (length order.old) }
{
    for (i, place) in order.iter_mut().enumerate() {
        *place = i;
    }
}

// From the last place down to place 1, each changes contents with one at or before it.
fn mix(order: &mut [usize], seed: u32)
    requires { length order.old ≤ 256 }
    ensures { order.new ≡ mixed (length order.old - 1) seed order.old }
{
    let mut state = seed;
    // Each turn needs two places, so no iterator over the order serves.
    for i in (1..order.len()).rev() {
        state = next_seed(state);
        order.swap(i, swap_place(state, i));
    }
}

// Makes the first places an order of their own numbers, given by the seed. By a rule of the project an order has 256 places.
pub fn shuffle(order: &mut [usize; 256], count: usize, seed: u32)
    requires { count ≤ 256 }
    ensures value { take count order.new ≡ shuffled count seed }
    ensures permutes { Permutes (take count order.new) count }
    ensures below { AllBelow order.new count }
    ensures covers { Covers order.new count }
{
    let front = &mut order[0..count];
    number(front);
    mix(front, seed);
}
