// Laws of every pool: each function's contract is one.
ghost use Rattle.pool.specs.Laws.{NothingLeaks, OthersKept, RefusedWhen, SmallestHad};

// Calls on other lists change neither the items nor the block of a list.
pub fn other_lists_are_kept<T: Copy>() -> u8
    ensures { OthersKept T }
{
    0
}

// Over any run of calls from new, blocks and untouched cells make up the memory.
pub fn nothing_leaks<T: Copy>() -> u8
    ensures { NothingLeaks T }
{
    0
}

// A block is refused exactly when none of its size is freed and too few cells are untouched.
pub fn refused_when_none_is_left<T: Copy>() -> u8
    ensures { RefusedWhen T }
{
    0
}

// A list gets the smallest block that holds it.
pub fn smallest_block() -> u8
    ensures { SmallestHad }
{
    0
}
