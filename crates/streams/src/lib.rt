// Standard input, standard output and arguments of a program. A call that is interrupted is made again, a write that takes a part goes on with the rest,
// and a failure is said on standard error.
#![tactic(auto)]

ghost use Rattle.std.specs.Prelude.{◌≡◌, ◌≤◌, length, IfSome, Err};
ghost use Rattle.std.specs.Io.{ReadsAtMost};
ghost use Rattle.std.specs.Io.KnownBytes.{ReadConsumes};
ghost use Rattle.streams.specs.Input.{BytesIn};

use std::env::{Env, FillError};
use std::io;
use std::io::{ErrorKind, Print, Read, Stderr, Stdin, Stdout, Write};

// No run is interrupted so often.
const CALLS: u64 = u64::MAX;

// How many bytes an argument has at most, to be read.
pub const WORD_BYTES: usize = 4096;

// How many bytes of an error's text are said.
const REASON_BYTES: usize = 128;

// What std puts between the system's text of an error and its number.
const BEFORE_NUMBER: &str = " (os error ";

// The streams of a program, which `main` takes from its runtime. They have no bytes. A read or a write that fails says so on standard error, and gives the
// error to its caller, who needs to say nothing more.
#[derive(Clone, Copy)]
pub struct Streams {
    pub input: Stdin,
    pub output: Stdout,
    pub errors: Stderr,
}

impl Streams {
    // The streams of the program that has this runtime. It has no clause: the library says nothing of what `stdin`, `stdout` and `stderr` give, and their
    // handles have no bytes. Each has a type of its own, so that none can stand in another's place.
    pub fn of(rt: &HostRuntime) -> Streams {
        Streams {
            input: rt.stdin(),
            output: rt.stdout(),
            errors: rt.stderr(),
        }
    }

    // One read, to the beginning of `to`: how many bytes were read, 0 at the input's end.
    pub fn read(self, to: &mut [u8]) -> io::Result<usize>
        ensures { BytesIn to.new result }
    {
        let mut input = self.input;
        read_from(&mut input, to).or_else(|e| self.failed(e))
    }

    // A read has failed: that is said, and its error is given.
    fn failed(self, failure: io::Error) -> io::Result<usize>
        ensures { result ≡ Err failure }
    {
        self.say("standard input is not read to its end", &failure);
        Err(failure)
    }

    // Reads to the end of the input, or until `to` is full.
    pub fn read_all(self, to: &mut [u8]) -> io::Result<usize>
        ensures { BytesIn to.new result }
    {
        let mut done = 0;
        // Kept: no index, but how much was read: a read gives as much as it likes, and read_exact fails at an early end.
        while done < to.len() {
            let n = self.read(&mut to[done..])?;
            if n == 0 {
                break;
            }
            done += n;
        }
        Ok(done)
    }

    // Writes all of `bytes`.
    pub fn write(self, bytes: &[u8]) -> io::Result<()> {
        let mut output = self.output;
        Write::write_all(&mut output, bytes).inspect_err(|e| self.say(
            "standard output is cut short",
            e,
        ))
    }

    // Says on standard error what has failed, and the system's text of why.
    fn say(self, what: &str, e: &io::Error) {
        let mut text = [0u8; REASON_BYTES];
        let mut rest = &mut text[..];
        let _ = write!(rest, "{e}");
        let reason = reason_in(&text);
        let _ = Print::println(&self.errors, format_args!("{what}: {reason}"));
    }
}

// One read from any reader.
fn read_from<R: Read>(input: &mut R, to: &mut [u8]) -> io::Result<usize>
    ensures bound { ReadsAtMost result to.new }
    ensures bytes { ReadConsumes (R.remaining input.old) (R.remaining input.new) result to.new }
{
    // Kept: a count, as a loop with no end needs the handle Wait, and this repository allows no handle.
    for _ in 0..CALLS {
        match input.read(to) {
            Ok(n) => return Ok(n),
            Err(e) => {
                if e.kind() != ErrorKind::Interrupted {
                    return Err(e);
                }
            },
        }
    }
    Err(io::Error::from(ErrorKind::Interrupted))
}

// The text of an error up to its number, which std puts behind it, or up to the first zero.
fn reason_in(text: &[u8]) -> &str {
    let Ok(words) = str::from_utf8(text) else {
        return "";
    };
    let (all, _) = words.split_once('\0').unwrap_or((words, ""));
    let (reason, _) = all.split_once(BEFORE_NUMBER).unwrap_or((all, ""));
    reason
}

// The argument at a place, at the beginning of `to`; none where there is no such argument or `to` is too short for it.
pub fn argument<'a>(rt: &impl Env, place: usize, to: &'a mut [u8]) -> Option<&'a [u8]>
    ensures { IfSome result (λ word. length word.now ≤ length to.old) }
{
    let n = rt.arg(place, to).ok()?;
    Some(&to[..n])
}

// How many arguments the program was started with, its own name among them.
pub fn argument_count(rt: &impl Env) -> usize {
    (0..usize::MAX)
        .find(|n| matches!(rt.arg(*n, &mut []), Err(FillError::NotPresent)))
        .unwrap_or(usize::MAX)
}

// Whether a program that takes no argument was given none. Else its usage is written: on standard output where it is asked for, on standard error
// otherwise.
// Kept: each program has the whole text of its usage, as of two writes that fail each would be said.
pub fn has_no_argument(rt: &impl Env, streams: Streams, usage: &[u8]) -> bool {
    if argument_count(rt) < 2 {
        return true;
    }
    let mut word = [0u8; WORD_BYTES];
    if matches!(argument(rt, 1, &mut word), Some(b"--help")) {
        let _ = streams.write(usage);
    } else {
        let mut errors = streams.errors;
        let _ = Write::write_all(&mut errors, usage);
    }
    false
}

#[cfg(test)]
mod tests {
    use super::*;
    use std::test::Fail;

    // Stands for an input: of two calls one is interrupted, the other gives a byte, its number; from the sixth on they fail.
    #[derive(Drop)]
    struct Calls {
        made: u8,
    }

    impl Read for Calls {
        fn read(&mut self, to: &mut [u8]) -> io::Result<usize> {
            self.made = self.made.saturating_add(1);
            if 5 < self.made {
                return Err(io::Error::from_raw_os_error(5));
            }
            if self.made % 2 == 1 {
                return Err(io::Error::from(ErrorKind::Interrupted));
            }
            if to.len() == 0 {
                return Ok(0);
            }
            to[0] = self.made;
            Ok(1)
        }
    }

    #[test]
    fn an_interrupted_read_is_made_again(rt: HostRuntime) -> Result<(), Fail> {
        let mut input = Calls { made: 0 };
        let mut to = [0u8; 2];
        assert_eq!(rt; read_from(&mut input, &mut to)?, 1);
        assert_eq!(rt; to, [2, 0]);
        assert_eq!(rt; read_from(&mut input, &mut to)?, 1);
        assert_eq!(rt; to, [4, 0]);
        for _ in 0..2 {
            let failure = read_from(&mut input, &mut to)
                .err()
                .and_then(|e| e.raw_os_error());
            assert_eq!(rt; failure, Some(5));
        }
        Ok(())
    }

    #[test]
    fn a_reason_has_no_number(rt: HostRuntime) {
        assert_eq!(rt;
            reason_in(b"No space left on device (os error 28)\0\0"),
            "No space left on device"
        );
        assert_eq!(rt;
            reason_in(b"failed to write whole buffer\0"),
            "failed to write whole buffer"
        );
        assert_eq!(rt; reason_in(b"cut"), "cut");
        assert_eq!(rt; reason_in(b"\xff"), "");
    }
}
