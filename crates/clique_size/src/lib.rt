// The size of the largest set of whole numbers in which every two differ by a forbidden latency (a clique), from the word of a collision vector, by
// branch and bound. Every function here is proved, total and without a `requires`; the crate assumes nothing of its own.
#![tactic(auto)]

ghost use Rattle.std.specs.Prelude.{◌≡◌, ◌-◌, ◌/◌, ◌^◌, suc, max};
ghost use Rattle.std.specs.Int.Count.{count_trailing_zeros};
ghost use Rattle.clique_size.specs.Largest.{most_of, largest_clique};

// One less, or 0.
fn one_less(number: u32) -> u32
    ensures { result ≡ number - 1 }
{
    if number == 0 {
        return 0;
    }
    number - 1
}

// The numbers above the lowest of a word's numbers, each counted from there on: bit k for the one that is k + 1 above it.
fn above_lowest(numbers: u32) -> u32
    ensures { result ≡ numbers / 2 ^ suc (count_trailing_zeros 32 numbers) }
{
    words::shift(numbers, u32::trailing_zeros(numbers) + 1)
}

// The most of a word's numbers of which every two differ by a forbidden latency, or `least` if that is more. Where they are no more than `least`
// there is nothing to gain. Else the lowest of them is taken, with the most of those above it that differ from it by a forbidden latency, or left out.
fn most_of(vector: u32, numbers: u32, least: u32) -> u32
    ensures { result ≡ max least (most_of 32 vector numbers) }
{
    if words::ones(numbers) <= least {
        return least;
    }
    let above = above_lowest(numbers);
    let with_lowest = most_of(vector, above & vector, one_less(least)) + 1;
    most_of(vector, above, with_lowest)
}

// The size of the largest clique of a collision vector.
pub fn largest(vector: u32) -> u32
    ensures { result ≡ largest_clique vector }
{
    most_of(vector, vector, 0) + 1
}
