// Identifiers and names in code. The rules stand in mesh/specs/Identifiers, Names and Answers.
#![tactic(auto)]

ghost use Rattle.std.specs.Prelude.{◌≡◌, true, cond, ◌++◌, ◌+◌, ◌%◌, ◌≤◌, ◌<◌, eqb, length, drop};
ghost use Rattle.answer.specs.Calls.{answer_of};
ghost use Rattle.mesh.specs.Identifiers.{depth_of};
ghost use Rattle.mesh.specs.Names.{letter_s, digit0, letter, name_at, is_letter, is_digit, are_digits, is_name, value_of, identifier_of};
ghost use Rattle.mesh.specs.Answers.{name_answer, name_after};

use answer::Refusal;

// The depth of an identifier, 1 to 31; 0 where it is none. An identifier of depth d has 2·d + 2 bits.
// Kept: 0 and no Option, as the rule's `depth_of` gives 0 where a number is no identifier.
pub fn depth_of(id: u64) -> u32
    ensures value { result ≡ depth_of id }
    ensures upper_bound { result ≤ 31 }
{
    let bits = 64 - u64::leading_zeros(id);
    if bits < 4 || bits % 2 == 1 {
        0
    } else {
        bits / 2 - 1
    }
}

// The letter for what stands before the digits, 2 or 3.
fn letter_of(a: u64) -> u8
    ensures { result ≡ letter a }
{
    if a == 2 { b'S' } else { b'N' }
}

// The last digit of an identifier.
fn last_digit(id: u64) -> u8
    ensures { result ≡ digit0 + id % 4 }
{
    b'0' + (id % 4) as u8
}

// Writes the name of an identifier at the beginning of `out`, from the last digit to the letter.
fn write_name(id: u64, depth: usize, out: &mut [u8])
    requires { depth < length out.old }
    ensures { out.new ≡ name_at depth id ++ drop (depth + 1) out.old }
{
    let mut rest = id;
    for at in (1..=depth).rev() {
        out[at] = last_digit(rest);
        rest /= 4;
    }
    out[0] = letter_of(rest);
}

// The name of an identifier, written at the beginning of `out`: its length, or a refusal (11, then 10), and then nothing is written.
pub fn name_of(id: u64, out: &mut [u8]) -> Result<u64, Refusal>
    ensures result_value { answer_of result ≡ name_answer id out.old }
    ensures out_after { out.new ≡ name_after id out.old }
{
    let depth = depth_of(id) as usize;
    if depth == 0 {
        return Err(Refusal::Name);
    }
    if out.len() <= depth {
        return Err(Refusal::Space);
    }
    write_name(id, depth, out);
    Ok(depth as u64 + 1)
}

fn is_letter(c: u8) -> bool
    ensures { result ≡ is_letter c }
{
    matches!(c, b'S' | b'N')
}

fn is_digit(c: u8) -> bool
    ensures { result ≡ is_digit c }
{
    matches!(c, b'0'..=b'3')
}

// Whether all bytes are digits.
fn are_digits(bytes: &[u8]) -> bool
    ensures { result ≡ are_digits bytes.now }
{
    bytes.iter().all(|c| is_digit(*c))
}

// The longest name: a letter and 31 digits.
const MAX_NAME_BYTES: usize = 32;

// A letter and 1 to 31 digits.
fn is_name(name: &[u8]) -> bool
    ensures { result ≡ is_name name.now }
{
    (2..=MAX_NAME_BYTES).contains(&name.len()) && is_letter(name[0]) && are_digits(&name[1..])
}

// What a letter stands for: 2 or 3.
fn letter_value(c: u8) -> u64
    ensures { result ≡ cond (eqb c letter_s) 2 3 }
{
    if c == b'S' { 2 } else { 3 }
}

// The identifier of a name.
fn value_of(name: &[u8]) -> u64
    requires { is_name name.now ≡ true }
    ensures { result ≡ value_of name.now }
{
    let mut id = letter_value(name[0]);
    for &c in &name[1..] {
        id = 4 * id + u64::from(c - b'0');
    }
    id
}

// The identifier of a name, or the refusal 11.
pub fn id_of(name: &[u8]) -> Result<u64, Refusal>
    ensures { answer_of result ≡ identifier_of name.now }
{
    if is_name(name) {
        Ok(value_of(name))
    } else {
        Err(Refusal::Name)
    }
}
