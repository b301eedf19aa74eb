//! Lines on the error stream, put together in place, so that they take no memory.

ghost use Rattle.std.specs.Prelude.{◌≡◌, ◌⊎◌, ◌+◌, ◌≤◌, ◌++◌, IsTrue, length, decimal};
ghost use Rattle.cdc_outside.specs.Count.{Rose};
ghost use Rattle.cdc_outside.specs.Sink.{WritesTo};
ghost use Rattle.cdc_serve.specs.Answers.{end_line, refused_line, serve_line};

use crate::answer::ServeAnswer;
use arrayvec::ArrayVec;
use cdc_config::ConfigKey;
use cdc_dumper::OpenFault;
use cdc_outside::Sink;
use cdc_server::ServeEnd;

/// The most bytes of a line. The longest, of an output that is refused with two numbers, has 76.
pub const LINE_MAX: usize = 120;

/// The bytes of a line.
type Line = ArrayVec<u8, LINE_MAX>;

/// Puts a piece behind a line's bytes.
fn put(line: &mut Line, piece: &[u8])
    requires { length line.old.items + length piece.now ≤ LINE_MAX }
    ensures items { line.new.items ≡ line.old.items ++ piece.now }
    ensures len { length line.new.items ≡ length line.old.items + length piece.now }
{
    let _ = line.try_extend_from_slice(piece);
}

/// Puts a number in decimal.
fn put_number(line: &mut Line, number: u64)
    requires { length line.old.items + 20 ≤ LINE_MAX }
    ensures items { line.new.items ≡ line.old.items ++ decimal number }
    ensures len { length line.new.items ≤ length line.old.items + 20 }
{
    put(line, itoa::Buffer::new().format(number).as_bytes());
}

/// A line with a number in its midst.
fn numbered(front: &[u8], number: u32, behind: &[u8]) -> Line
    requires { length front.now + length behind.now ≤ 60 }
    ensures items { result.items ≡ front.now ++ decimal number ++ behind.now }
    ensures len { length result.items ≤ length front.now + length behind.now + 20 }
{
    let mut line = Line::new();
    put(&mut line, front);
    put_number(&mut line, u64::from(number));
    put(&mut line, behind);
    line
}

/// The line of an output whose Front's file is too short.
fn short_line(out: u32, kept: u64, found: u64) -> Line
    ensures { result.items ≡ refused_line out (OpenFault.BadFront kept found) }
{
    let mut line = numbered(b"cdc: kept out ", out, b" bad front ");
    put_number(&mut line, kept);
    put(&mut line, b" ");
    put_number(&mut line, found);
    put(&mut line, b"\n");
    line
}

/// Writes a line, or a front of it.
fn say<K: Sink>(err: &mut K, line: &[u8])
    ensures line { IsTrue K.tells → (K.written err.new ≡ K.written err.old ++ line.now)
        ⊎ (WritesTo (K.written err.old) line.now (K.written err.new) × Rose (K.faults err.old) (K.faults err.new)) }
    ensures later { K.faults err.old ≤ K.faults err.new }
{
    match err.write(line) {
        Ok(()) => {}
        Err(_) => {}
    }
}

/// Says which output is refused.
fn say_refused<K: Sink>(err: &mut K, out: u32, fault: OpenFault)
    ensures line { IsTrue K.tells → (K.written err.new ≡ K.written err.old ++ refused_line out fault)
        ⊎ (WritesTo (K.written err.old) (refused_line out fault) (K.written err.new) × Rose (K.faults err.old) (K.faults err.new)) }
    ensures later { K.faults err.old ≤ K.faults err.new }
{
    match fault {
        OpenFault::DiskFault => say(err, numbered(b"cdc: disk out ", out, b"\n").as_slice()),
        OpenFault::BadCell(_) => {
            say(
                err,
                numbered(b"cdc: kept out ", out, b" bad cell\n").as_slice(),
            )
        }
        OpenFault::BadFront { kept, found } => say(err, short_line(out, kept, found).as_slice()),
    }
}

/// Says what doors came to; nothing where all is done.
fn say_end<K: Sink>(err: &mut K, end: ServeEnd)
    ensures line { IsTrue K.tells → (K.written err.new ≡ K.written err.old ++ end_line end)
        ⊎ (WritesTo (K.written err.old) (end_line end) (K.written err.new) × Rose (K.faults err.old) (K.faults err.new)) }
    ensures later { K.faults err.old ≤ K.faults err.new }
{
    match end {
        ServeEnd::Done => {}
        ServeEnd::Disk { out } => say(err, numbered(b"cdc: disk out ", out, b"\n").as_slice()),
        ServeEnd::Kept { out, fault } => say_refused(err, out, fault),
        ServeEnd::Torn { out } => {
            say(err, numbered(b"cdc: kept out ", out, b" torn\n").as_slice())
        }
        ServeEnd::Memory => say(err, b"cdc: memory\n"),
        ServeEnd::Door { door } => say(err, numbered(b"cdc: door ", door, b"\n").as_slice()),
        ServeEnd::Salt { door } => say(err, numbered(b"cdc: salt ", door, b"\n").as_slice()),
    }
}

/// The line of a configuration that is refused.
fn config_line(key: ConfigKey) -> &'static [u8]
    ensures { result.now ≡ serve_line (ServeAnswer.Config key) }
{
    match key {
        ConfigKey::Toml => b"cdc: config toml\n",
        ConfigKey::Rotation => b"cdc: config rotation\n",
        ConfigKey::Window => b"cdc: config window\n",
        ConfigKey::Node => b"cdc: config node\n",
        ConfigKey::Out => b"cdc: config out\n",
        ConfigKey::Task => b"cdc: config task\n",
        ConfigKey::Table => b"cdc: config table\n",
        ConfigKey::User => b"cdc: config user\n",
        ConfigKey::Split => b"cdc: config split\n",
        ConfigKey::Unknown => b"cdc: config unknown\n",
    }
}

/// Writes the line of an answer, which takes no memory; nothing where all is done. A line that can't be written is let
/// be: the count of `err` tells.
pub(crate) fn report<K: Sink>(answer: ServeAnswer, err: &mut K)
    ensures line { IsTrue K.tells → (K.written err.new ≡ K.written err.old ++ serve_line answer)
        ⊎ (WritesTo (K.written err.old) (serve_line answer) (K.written err.new) × Rose (K.faults err.old) (K.faults err.new)) }
    ensures later { K.faults err.old ≤ K.faults err.new }
{
    match answer {
        ServeAnswer::Usage => say(err, b"cdc: usage\n"),
        ServeAnswer::ReadConfig => say(err, b"cdc: read config\n"),
        ServeAnswer::Config(key) => say(err, config_line(key)),
        ServeAnswer::Memory => say(err, b"cdc: memory\n"),
        ServeAnswer::Served(end) => say_end(err, end),
    }
}
