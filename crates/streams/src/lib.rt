//! Bytes in and out of a program: reading into a buffer that the caller has, from a stream, from a file, from the
//! program's arguments, and writing on standard error. Nothing here requires anything of its caller.
#![tactic(auto)]

ghost use Rattle.std.specs.Prelude.{◌≡◌, ◌↔◌, ◌<◌, ◌≤◌, ℕ, length, take, IfOk, IfSome, IsOk, OnOk, OnErr, IsUtf8};
ghost use Rattle.std.specs.Io.{ReadsAtMost};
ghost use Rattle.std.specs.Io.KnownBytes.{Consumes, IsAtEnd, Keeps};

use std::env::FillError;
use std::io::{ErrorKind, Read, Write};
use std::rt::{Env, Files};
use std::{fs, io};

/// Standard error, for bytes that need not be text.
pub trait Errors {
    fn write_error(&self, bytes: &[u8]) -> io::Result<()>;
}

impl Errors for HostRuntime {
    fn write_error(&self, bytes: &[u8]) -> io::Result<()> {
        self.stderr().write_all(bytes)
    }
}

fn is_interrupted(error: &io::Error) -> bool {
    error.kind() == ErrorKind::Interrupted
}

/// Reads once. A read that a signal interrupts is tried again, as often as 64 bits count: a loop has to be shown to end. Then it timed out.
pub fn get<R: Read>(from: &mut R, bytes: &mut [u8]) -> io::Result<usize>
    ensures within { ReadsAtMost result bytes.new }
    ensures ok { IfOk result (λ n. Consumes (R.remaining from.old) (R.remaining from.new) (take n bytes.new)) }
    ensures end { IfOk result (λ n. n ≡ 0 → 0 < length bytes.old → IsAtEnd (R.remaining from.new)) }
    ensures err { OnErr result (Keeps (R.remaining from.old) (R.remaining from.new)) }
{
    for _ in 0..u64::MAX {
        match from.read(bytes) {
            Ok(n) => return Ok(n),
            Err(error) if is_interrupted(&error) => {}
            Err(error) => return Err(error),
        }
    }
    Err(io::Error::from(ErrorKind::TimedOut))
}

/// Reads until the buffer is full or the stream ends, and answers how many bytes it put at the buffer's start.
/// After an error what was read until then stands at the buffer's start, and the buffer is not full.
pub fn fill<R: Read>(from: &mut R, bytes: &mut [u8]) -> io::Result<usize>
    ensures within { ReadsAtMost result bytes.new }
    ensures ok { IfOk result (λ n. Consumes (R.remaining from.old) (R.remaining from.new) (take n bytes.new)) }
    ensures end { IfOk result (λ n. n < length bytes.old → IsAtEnd (R.remaining from.new)) }
    ensures err { OnErr result ((n : ℕ) × (n < length bytes.old) × Consumes (R.remaining from.old) (R.remaining from.new) (take n bytes.new)) }
{
    let mut size = 0;
    // Kept: (d) the place moves by what each read gave, so there is no range or iterator to go over.
    while size < bytes.len() {
        let n = get(from, &mut bytes[size..])?;
        if n == 0 {
            return Ok(size);
        }
        size += n;
    }
    Ok(size)
}

/// The bytes of a path as text, which std wants.
pub fn path_text(path: &[u8]) -> io::Result<&str>
    ensures ok { IfOk result (λ text. text.now ≡ path.now) }
    ensures utf8 { IsOk result ↔ IsUtf8 path.now }
{
    str::from_utf8(path).map_err(|_| io::Error::from(ErrorKind::InvalidInput))
}

/// Opens a file for reading. A path that is no text opens none; of any other std's contract says nothing.
pub fn open<R: Files>(rt: &R, path: &[u8]) -> io::Result<R::File>
    ensures { OnOk result (IsUtf8 path.now) }
{
    fs::open(rt, path_text(path)?)
}

/// Makes a file, or empties it, for writing. A path that is no text makes none; of any other std's contract says nothing.
pub fn create<R: Files>(rt: &R, path: &[u8]) -> io::Result<R::File>
    ensures { OnOk result (IsUtf8 path.now) }
{
    fs::create(rt, path_text(path)?)
}

/// Reads a file from its start until the buffer is full or the file ends. Which bytes a file has std's contract of `open` does not say.
pub fn load<R: Files>(rt: &R, path: &[u8], bytes: &mut [u8]) -> io::Result<usize>
    ensures within { ReadsAtMost result bytes.new }
    ensures text { OnOk result (IsUtf8 path.now) }
{
    let mut file = open(rt, path)?;
    fill(&mut file, bytes)
}

/// Puts argument `i` at the buffer's start and answers it there: all of the buffer where it has no room for it, `None` past the last.
/// Which arguments there are, and which bytes they have, std's contract of `Env::arg` does not say.
pub fn argument<'a, R: Env>(rt: &R, i: usize, bytes: &'a mut [u8]) -> Option<&'a [u8]>
    ensures { IfSome result (λ part. length part.now ≤ length bytes.old) }
{
    match rt.arg(i, bytes) {
        Ok(n) => Some(&bytes[..n]),
        Err(FillError::TooLong) => Some(bytes),
        Err(FillError::NotPresent) => None,
    }
}
