// Counts of what stands in a file, which has no known length.
ghost use Rattle.std.specs.Prelude.{◌≡◌};
ghost use Rattle.files.specs.Counting.{more_of};

// Adds one, up to the largest count.
pub fn more(n: u64) -> u64
    ensures { result ≡ more_of n }
{
    n.saturating_add(1)
}
