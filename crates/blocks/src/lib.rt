// A block of input whose last bytes are kept for the next one.

#![tactic(auto)]

ghost use Rattle.std.specs.Prelude.{drop, length, ◌++◌, ◌≡◌};
ghost use Rattle.blocks.specs.Blocks.{part_of};

// Moves the bytes from one index up to another to the front, and tells how many they are.
pub fn move_to_front(block: &mut [u8], from: usize, to: usize) -> usize
    ensures count { result ≡ length (part_of block.old from to) }
    ensures bytes { block.new ≡ part_of block.old from to ++ drop (length (part_of block.old from to)) block.old }
{
    let n = to.min(block.len()).saturating_sub(from);
    if n != 0 {
        block.copy_within(from..from + n, 0);
    }
    n
}
