// What the words of the contracts mean, said once more.
ghost use Rattle.nm_tree.specs.Depth.{IsDepth, depth_of};

/// The depth of a number n of pairs, which bounds the steps of a look-up, is the greatest b with
/// `2^b <= (n + 1)^2`.
pub fn depth_is_greatest(n: usize)
    ensures { IsDepth n (depth_of n) }
{}
