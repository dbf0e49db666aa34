// The parts of a region file, put into a lent list: words, numbers with a sign, length and kind of a record, the numbers of a halfspace. The rules
// stand in region/specs/Bytes, Records and Writer.
ghost use Rattle.std.specs.Prelude.{◌≡◌, ◌+◌, ◌≤◌, ◌<◌, length};
ghost use Rattle.algebra.proofs.Sizes.{Upto};
ghost use Rattle.answer.specs.Lent.{put};
ghost use Rattle.vector.specs.Numbers.{Kℕ};
ghost use Rattle.vector.proofs.Sizes.{Small};
ghost use Rattle.region.specs.Bytes.{word_bytes, signed_bytes};
ghost use Rattle.region.specs.Records.{size};
ghost use Rattle.region.specs.Writer.{begin, numbers_bytes};

use region::{Halfspace, Record};

// 16 bits at position `at`.
pub fn put_word(out: &mut [u8], at: usize, n: u32)
    requires { (at + 2 ≤ length out.old) × (n < 65536) }
    ensures { out.new ≡ put at (word_bytes n) out.old }
{
    out[at..at + 2].copy_from_slice(&(n as u16).to_le_bytes());
}

// Signed 32 bits at position `at`.
fn put_signed(out: &mut [u8], at: usize, z: i64)
    requires { (at + 4 ≤ length out.old) × Upto Kℕ z }
    ensures { out.new ≡ put at (signed_bytes z) out.old }
{
    let bytes = (z as i32).to_le_bytes();
    out[at..at + 4].copy_from_slice(&bytes);
}

// Length and kind of a record at position `at`.
pub fn put_kind(out: &mut [u8], at: usize, r: Record)
    requires { (at + 4 ≤ length out.old) × (size r < 65536) }
    ensures { out.new ≡ put at (begin r) out.old }
{
    put_word(out, at, crate::size_of(r));
    put_word(out, at + 2, crate::kind_of(r));
}

// The numbers of a halfspace at position `at`.
pub fn put_numbers(out: &mut [u8], at: usize, h: Halfspace)
    requires at_in_bounds { at + 16 ≤ length out.old }
    requires small { Small h.n }
    requires upto { Upto Kℕ h.d }
    ensures { out.new ≡ put at (numbers_bytes h) out.old }
{
    let n = h.n;
    put_signed(out, at, n.x);
    put_signed(out, at + 4, n.y);
    put_signed(out, at + 8, n.z);
    put_signed(out, at + 12, h.d);
}
