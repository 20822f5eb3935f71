// What the programs for people share: a file comes from standard input; an answer goes to standard output; what else the
// command that runs them has to know goes to standard error, in lines.
#![tactic(auto)]

ghost use Rattle.std.specs.Prelude.{◌≡◌, ◌≢◌, ℕ, IfOk, IfErr, OnOk, MatchResult, ◌<◌, ◌≤◌, ◌⊎◌, length, take};
ghost use Rattle.std.specs.Io.KnownBytes.{Appends, Consumes, IsAtEnd};
ghost use Rattle.io.specs.Counts.{IsPrefixLen};
ghost use Rattle.console.specs.Stops.{IsUnread};

use refusal::{Limit, Refusal};
use std::env::{Env, FillError};
use std::fmt::Display;
use std::io::{self, ErrorKind, Read, Stderr, Stdin, Stdout, Write};
use std::process::ExitCode;

// The three streams that a program is given.
pub trait Streams {
    type Input: Read + Drop;

    type Output: Write + Drop;

    type Errors: Write + Drop;

    fn input(&self) -> Self::Input;

    fn output(&self) -> Self::Output;

    fn errors(&self) -> Self::Errors;
}

impl Streams for HostRuntime {
    type Input = Stdin;

    type Output = Stdout;

    type Errors = Stderr;

    fn input(&self) -> Stdin {
        self.stdin()
    }

    fn output(&self) -> Stdout {
        self.stdout()
    }

    fn errors(&self) -> Stderr {
        self.stderr()
    }
}

// Why a program ends before its answer is out. All but the last it has said on standard error.
#[derive(Clone, Copy, Debug, PartialEq, Eq)]
pub enum Stopped {
    // An argument is no number of its type.
    NoNumber,
    // A read of standard input failed, behind so many bytes.
    Unread(usize),
    // The input is too long.
    Long,
    // A write to standard output failed.
    Lost,
    // Nobody reads standard output any more. The program says nothing then.
    Gone,
}

// The status to end with: 0, or where nobody read the output any more that of a program which SIGPIPE ended.
pub fn status(ended: Result<(), Stopped>) -> ExitCode {
    match ended {
        Err(Stopped::Gone) => ExitCode::from(141),
        _ => ExitCode::SUCCESS,
    }
}

// Reads arguments from the first on, as many as there are and there is room for, and answers how many. One that is no
// number of the type it says: NUMBER and its place.
pub fn read_arguments<T: TryFrom<i64> + Copy>(
    rt: &(impl Streams + Env),
    numbers: &mut [T],
) -> Result<usize, Stopped>
where
    T::Error: Drop,
    ensures within { IfOk result (λ count. count ≤ length numbers.new) }
    ensures why { IfErr result (λ why. why ≡ Stopped.NoNumber) }
{
    let len = numbers.len();
    for (i, number) in numbers.iter_mut().enumerate() {
        let Some(x) = argument(rt, i + 1)? else {
            return Ok(i);
        };
        *number = x;
    }
    Ok(len)
}

// Reads as many arguments as there is room for. A missing one is no number.
pub fn read_all_arguments<T: TryFrom<i64> + Copy>(
    rt: &(impl Streams + Env),
    numbers: &mut [T],
) -> Result<(), Stopped>
where
    T::Error: Drop,
    ensures { IfErr result (λ why. why ≡ Stopped.NoNumber) }
{
    let count = read_arguments(rt, numbers)?;
    if count < numbers.len() {
        return Err(no_number(rt, count + 1));
    }
    Ok(())
}

// The number that an argument says: none, where there is no such argument.
fn argument<T: TryFrom<i64>>(rt: &(impl Streams + Env), place: usize) -> Result<Option<T>, Stopped>
where
    T::Error: Drop,
    ensures { IfErr result (λ why. why ≡ Stopped.NoNumber) }
{
    let mut word = [0u8; 32];
    let number = match rt.arg(place, &mut word) {
        Ok(len) => parse::number_as(&word[..len]),
        Err(FillError::TooLong) => None,
        Err(FillError::NotPresent) => return Ok(None),
    };
    match number {
        Some(x) => Ok(Some(x)),
        None => Err(no_number(rt, place)),
    }
}

// Says the place of an argument that is no number.
fn no_number(rt: &impl Streams, place: usize) -> Stopped
    ensures { result ≡ Stopped.NoNumber }
{
    say(rt, format_args!("NUMBER {place}"));
    Stopped::NoNumber
}

// Reads standard input until it ends or buf is full, and answers how many bytes there are. Where a read fails, it says
// UNREAD: what came before is no input.
pub fn read_input(rt: &impl Streams, buf: &mut [u8]) -> Result<usize, Stopped>
    ensures len { IfOk result (λ len. IsPrefixLen len buf.new) }
    ensures why { IfErr result (λ why. IsUnread why buf.new) }
{
    match fill(&mut rt.input(), buf) {
        (len, Ok(())) => Ok(len),
        (len, Err(_)) => {
            let _ = put(&mut rt.errors(), b"UNREAD\n");
            Err(Stopped::Unread(len))
        }
    }
}

// Reads standard input, which has to leave room in buf. Where it does not, it says LONG.
pub fn read_limited_input(rt: &impl Streams, buf: &mut [u8]) -> Result<usize, Stopped>
    ensures len { IfOk result (λ len. IsPrefixLen len buf.new × (len < length buf.new)) }
    ensures why { IfErr result (λ why. IsUnread why buf.new ⊎ (why ≡ Stopped.Long)) }
{
    let len = read_input(rt, buf)?;
    if len == buf.len() {
        let _ = put(&mut rt.errors(), b"LONG\n");
        return Err(Stopped::Long);
    }
    Ok(len)
}

// Writes the first len bytes to standard output. Where not all are taken, it says LOST; but nothing where nobody reads them.
pub fn send(rt: &impl Streams, out: &[u8], len: usize) -> Result<(), Stopped>
    ensures { IfErr result (λ why. (why ≡ Stopped.Lost) ⊎ (why ≡ Stopped.Gone)) }
{
    match write(&mut rt.output(), out, len) {
        Ok(()) => Ok(()),
        Err(error) => Err(lose(rt, error.kind())),
    }
}

// What an error of this kind means for the output: nobody reads it, or it is lost.
fn lose(rt: &impl Streams, kind: ErrorKind) -> Stopped
    ensures gone { kind ≡ ErrorKind.BrokenPipe → result ≡ Stopped.Gone }
    ensures lost { kind ≢ ErrorKind.BrokenPipe → result ≡ Stopped.Lost }
{
    if kind == ErrorKind::BrokenPipe {
        return Stopped::Gone;
    }
    let _ = put(&mut rt.errors(), b"LOST\n");
    Stopped::Lost
}

// Writes the line of a refusal, the first len bytes, to standard output, and says it to the command too.
pub fn refuse(rt: &impl Streams, line: &[u8], len: usize) -> Result<(), Stopped>
    ensures { IfErr result (λ why. (why ≡ Stopped.Lost) ⊎ (why ≡ Stopped.Gone)) }
{
    send(rt, line, len)?;
    say_bytes(rt, line, len);
    Ok(())
}

// Says the first len bytes to the command.
pub fn say_bytes(rt: &impl Streams, out: &[u8], len: usize) {
    let _ = write(&mut rt.errors(), out, len);
}

// Writes the frame file that was put into the first bytes of `out`, and says how many triangles and bytes it has; or says
// the limit that is broken. A header has 12 bytes, and a record 16.
pub fn send_frame(
    rt: &impl Streams,
    out: &[u8],
    written: Result<usize, Limit>,
) -> Result<(), Stopped>
    ensures { IfErr result (λ why. (why ≡ Stopped.Lost) ⊎ (why ≡ Stopped.Gone)) }
{
    match written {
        Ok(len) => {
            send(rt, out, len)?;
            say(rt, format_args!("TRIANGLES {}", len / 16));
            say(rt, format_args!("BYTES {len}"));
        }
        Err(limit) => {
            let Refusal { number, place } = Refusal::from(limit);
            let mut line = [0u8; 64];
            let len = text::put_refused(&mut line, number as usize, place);
            say_bytes(rt, &line, len);
        }
    }
    Ok(())
}

// Says a line to the command.
pub fn say<D: Display + Drop>(rt: &impl Streams, line: D) {
    let _ = rt.errors().writeln(line);
}

// Writes the first len bytes. A length past the buffer is an error, and no demand on callers: their contracts bound none.
fn write<W: Write>(to: &mut W, out: &[u8], len: usize) -> io::Result<()> {
    if len <= out.len() {
        return put(to, &out[..len]);
    }
    Err(io::Error::from(ErrorKind::InvalidInput))
}

// Reads until the input ends or buf is full, and answers how many bytes there are. Where it leaves room, it has all of the
// input: a read that fails is no end.
pub fn read_full<R: Read>(from: &mut R, buf: &mut [u8]) -> io::Result<usize>
    ensures in_bounds { IfOk result (λ len. IsPrefixLen len buf.new) }
    ensures bytes { MatchResult result (λ len. Consumes (R.remaining from.old) (R.remaining from.new) (take len buf.new))
        (λ _. (len : ℕ) × IsPrefixLen len buf.new × Consumes (R.remaining from.old) (R.remaining from.new) (take len buf.new)) }
    ensures end { IfOk result (λ len. len < length buf.new → IsAtEnd (R.remaining from.new)) }
{
    match fill(from, buf) {
        (len, Ok(())) => Ok(len),
        (_, Err(error)) => Err(error),
    }
}

// Reads until the input ends, a read fails or buf is full. It answers how many bytes there are, and the error of a read that
// failed. The loop goes on by what each read gave, which no range counts.
fn fill<R: Read>(from: &mut R, buf: &mut [u8]) -> (usize, io::Result<()>)
    ensures in_bounds { IsPrefixLen result.0 buf.new }
    ensures bytes { Consumes (R.remaining from.old) (R.remaining from.new) (take result.0 buf.new) }
    ensures end { IfOk result.1 (λ _. result.0 < length buf.new → IsAtEnd (R.remaining from.new)) }
{
    let mut done: usize = 0;
    while done < buf.len() {
        match from.read(&mut buf[done..]) {
            Ok(0) => break,
            Ok(more) => done += more,
            Err(error) => return (done, Err(error)),
        }
    }
    (done, Ok(()))
}

// Writes all bytes. It ends at the first write that fails or takes nothing. It is no call of std's `write_all`, so that what
// a write means which takes nothing is proved here, and an edit of it is refused.
fn put<W: Write>(to: &mut W, bytes: &[u8]) -> io::Result<()>
    ensures { OnOk result (Appends (W.contents to.old) (W.contents to.new) bytes.now) }
{
    let mut done: usize = 0;
    while done < bytes.len() {
        match to.write(&bytes[done..])? {
            0 => return Err(io::Error::from(ErrorKind::WriteZero)),
            more => done += more,
        }
    }
    Ok(())
}
