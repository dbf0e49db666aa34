// Mathematics, and the one function that crates of both lent lists share: specs/ has the few definitions that other crates build on, proofs/ the laws that
// they cite.
#![tactic(auto)]

ghost use Rattle.std.specs.Prelude.{◌≡◌, ◌+◌, ◌≤◌, length};
ghost use Rattle.algebra.specs.Moves.{shifted_down};

// Of count elements, from element at on, each becomes the one that stands WIDTH places further on.
// Kept: the moves by hand, as the library's `copy_within` needs memmove, and include/htm.h promises memcpy and memset alone.
pub fn shift_down<T: Copy, const WIDTH: usize>(list: &mut [T], at: usize, count: usize)
    requires { at + count + WIDTH ≤ length list.old }
    ensures { list.new ≡ shifted_down WIDTH at list.old count }
{
    for k in 0..count {
        list[at + k] = list[at + k + WIDTH];
    }
}
