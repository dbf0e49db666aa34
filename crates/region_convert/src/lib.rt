// Conversions of region files from one style to the other: a file in the wanted style is copied, another is written anew from its rows, with its depth and
// budget as written. The rules stand in region/specs/Converting and Answers.
#![tactic(auto)]

ghost use Rattle.std.specs.Prelude.{◌≡◌, ◌≤◌, length};
ghost use Rattle.answer.specs.Answer.{gives};
ghost use Rattle.answer.specs.Calls.{answer_of};
ghost use Rattle.answer.specs.Lent.{put};
ghost use Rattle.region.specs.Converting as converting;
ghost use Rattle.region.specs.Answers.{file_answer, file_after};

use answer::Refusal;
use limits::HALFSPACES;
use region::Style;

// Copies a file to the beginning of `out`.
// Kept: byte after byte, as the library's `copy_from_slice` between two lent slices needs memmove, and include/htm.h promises memcpy and memset alone.
fn copy(file: &[u8], out: &mut [u8])
    requires { length file.now ≤ length out.old }
    ensures { out.new ≡ put 0 file.now out.old }
{
    for (i, byte) in file.iter().enumerate() {
        out[i] = *byte;
    }
}

// A file as it is, at the beginning of `out`, and its length; or the refusal 10.
fn as_it_is(file: &[u8], out: &mut [u8]) -> Result<u64, Refusal>
    ensures result_value { answer_of result ≡ file_answer (gives file.now) out.old }
    ensures out_after { out.new ≡ file_after (gives file.now) out.old }
{
    if out.len() < file.len() {
        return Err(Refusal::Space);
    }
    copy(file, out);
    Ok(file.len() as u64)
}

// The file in the wanted style, at the beginning of `out`, and its length; or the refusal of the file's first failed check, 10 last, and then nothing is
// written.
pub fn convert(style: Style, file: &[u8], out: &mut [u8]) -> Result<u64, Refusal>
    ensures result_value { answer_of result ≡ file_answer (converting.convert style file.now) out.old }
    ensures out_after { out.new ≡ file_after (converting.convert style file.now) out.old }
{
    let mut rows = [0i32; 5 * HALFSPACES];
    let h = region_reader::decode(file, &mut rows)?;
    if style == region_reader::style_of(file) {
        return as_it_is(file, out);
    }
    let n = 5 * (h.count as usize);
    region_writer::write(style, h.depth, h.budget, &rows[..n], out)
}
