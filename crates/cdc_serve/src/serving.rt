//! The top call of a server.

ghost use Rattle.std.specs.Prelude.{◌≡◌, ◌⊎◌, ℕ, ◌+◌, ◌^◌, ◌<◌, ◌≤◌, ◌++◌, IsTrue, List, None, length, map, ⊤};
ghost use Rattle.std.specs.List.{AllByRecursion};
ghost use Rattle.cdc_config.specs.Plan.{refused_key};
ghost use Rattle.cdc_outside.specs.Count.{Rose};
ghost use Rattle.cdc_outside.specs.Disk.{Image};
ghost use Rattle.cdc_outside.specs.Sink.{WritesTo};
ghost use Rattle.cdc_outside.specs.Source.{file_of};
ghost use Rattle.cdc_session.specs.Shelf.{IsRefusedShelf, HasTornFile};
ghost use Rattle.cdc_serve.specs.Answers.{serve_line, serve_status};
ghost use Rattle.cdc_serve.specs.Call as call;
ghost use Rattle.cdc_serve.specs.Call.{IsCausedEnd, IsConfigAnswer, IsServe, IsServeAnswer};
ghost use Rattle.cdc_server.specs.Doors.{IsDoorServed};
ghost use Rattle.cdc_server.specs.Server.{IsSoAt, RoseAt, ServesDoors, serve_end};

use crate::answer::{ServeAnswer, status};
use crate::lines::report;
use cdc_base::{Text, User, UserList};
use cdc_config::{Command, Refusal, command_of, plan_of};
use cdc_dumper::OpenFault;
use cdc_outside::{Disk, Door, ReadWholeError, Salt, Sink, Source, read_whole};
use cdc_server::{FirstEnd, ServeEnd, serve_all};
use std::alloc::Global;
use std::sync::Wait;
use std::thread::Threads;

/// Serves the doors of a plan with these users.
fn serve_users<R: Threads + Wait + Sync, D: Disk + Send, G: Door + Send, Z: Salt + Send>(
    rt: &R,
    alloc: Global,
    users: &UserList,
    outs: &mut [D],
    doors: &mut [G],
    salts: &mut [Z],
) -> ServeEnd
    requires outs { length outs.old ≡ length doors.old }
    requires salts { length salts.old ≡ length doors.old }
    requires few { 1 + length doors.old < 2 ^ 32 }
    ensures served { 0 < length doors.old → (first : FirstEnd) × (result ≡ serve_end first.door first.ending)
        × ServesDoors (IsDoorServed D.tells D.seen D.synced D.pending D.may_leave D.moment D.left_since D.faults G.tells G.shut G.handed G.served G.faults Z.tells Z.drawn Z.faults users.now)
        1 outs.old outs.new doors.old doors.new salts.old salts.new first }
    ensures caused { IsCausedEnd (AllByRecursion (λ (door : G). IsTrue (G.shut door)) doors.new)
        (λ (out : ℕ). RoseAt (map D.faults outs.old) (map D.faults outs.new) out)
        (λ (out : ℕ) (fault : OpenFault). IsSoAt (λ (image : Image). IsTrue D.tells → IsRefusedShelf image fault) (map D.seen outs.old) out)
        (λ (out : ℕ). IsSoAt (λ (image : Image). IsTrue D.tells → HasTornFile image) (map D.seen outs.old) out)
        (λ (door : ℕ). RoseAt (map G.faults doors.old) (map G.faults doors.new) door)
        (λ (door : ℕ). RoseAt (map Z.faults salts.old) (map Z.faults salts.new) door) result }
{
    serve_all(rt, alloc, users, outs, doors, salts)
}

/// Serves the doors of the plan that a configuration gives.
fn serve_text<R: Threads + Wait + Sync, D: Disk + Send, G: Door + Send, Z: Salt + Send>(
    rt: &R,
    alloc: Global,
    text: &[u8],
    outs: &mut [D],
    doors: &mut [G],
    salts: &mut [Z],
) -> ServeAnswer
    requires outs { length outs.old ≡ length doors.old }
    requires salts { length salts.old ≡ length doors.old }
    requires few { 1 + length doors.old < 2 ^ 32 }
    ensures { IsConfigAnswer text.now ⊤ ⊥
        (λ (users : List User) (end : ServeEnd). (0 < length doors.old → (first : FirstEnd) × (end ≡ serve_end first.door first.ending)
        × ServesDoors (IsDoorServed D.tells D.seen D.synced D.pending D.may_leave D.moment D.left_since D.faults G.tells G.shut G.handed G.served G.faults Z.tells Z.drawn Z.faults users)
        1 outs.old outs.new doors.old doors.new salts.old salts.new first)
        × IsCausedEnd (AllByRecursion (λ (door : G). IsTrue (G.shut door)) doors.new)
        (λ (out : ℕ). RoseAt (map D.faults outs.old) (map D.faults outs.new) out)
        (λ (out : ℕ) (fault : OpenFault). IsSoAt (λ (image : Image). IsTrue D.tells → IsRefusedShelf image fault) (map D.seen outs.old) out)
        (λ (out : ℕ). IsSoAt (λ (image : Image). IsTrue D.tells → HasTornFile image) (map D.seen outs.old) out)
        (λ (door : ℕ). RoseAt (map G.faults doors.old) (map G.faults doors.new) door)
        (λ (door : ℕ). RoseAt (map Z.faults salts.old) (map Z.faults salts.new) door) end)
        ((outs.new ≡ outs.old) × (doors.new ≡ doors.old) × (salts.new ≡ salts.old)) result }
{
    match plan_of(alloc, text) {
        Ok(plan) => ServeAnswer::Served(serve_users(rt, alloc, &plan.users, outs, doors, salts)),
        Err(Refusal::Config(key)) => ServeAnswer::Config(key),
        Err(Refusal::Memory) => ServeAnswer::Memory,
        Err(Refusal::Usage) => unreachable!(),
    }
}

/// Reads the configuration, and serves the doors of its plan.
fn serve_config<
    R: Threads + Wait + Sync,
    C: Source,
    D: Disk + Send,
    G: Door + Send,
    Z: Salt + Send,
>(
    rt: &R,
    alloc: Global,
    config: &mut C,
    outs: &mut [D],
    doors: &mut [G],
    salts: &mut [Z],
) -> ServeAnswer
    requires config { 1 ≤ length (C.sizes config.old) }
    requires outs { length outs.old ≡ length doors.old }
    requires salts { length salts.old ≡ length doors.old }
    requires few { 1 + length doors.old < 2 ^ 32 }
    ensures answer { IsConfigAnswer (file_of (C.held config.old) 1) (IsTrue C.tells) (Rose (C.faults config.old) (C.faults config.new))
        (λ (users : List User) (end : ServeEnd). (0 < length doors.old → (first : FirstEnd) × (end ≡ serve_end first.door first.ending)
        × ServesDoors (IsDoorServed D.tells D.seen D.synced D.pending D.may_leave D.moment D.left_since D.faults G.tells G.shut G.handed G.served G.faults Z.tells Z.drawn Z.faults users)
        1 outs.old outs.new doors.old doors.new salts.old salts.new first)
        × IsCausedEnd (AllByRecursion (λ (door : G). IsTrue (G.shut door)) doors.new)
        (λ (out : ℕ). RoseAt (map D.faults outs.old) (map D.faults outs.new) out)
        (λ (out : ℕ) (fault : OpenFault). IsSoAt (λ (image : Image). IsTrue D.tells → IsRefusedShelf image fault) (map D.seen outs.old) out)
        (λ (out : ℕ). IsSoAt (λ (image : Image). IsTrue D.tells → HasTornFile image) (map D.seen outs.old) out)
        (λ (door : ℕ). RoseAt (map G.faults doors.old) (map G.faults doors.new) door)
        (λ (door : ℕ). RoseAt (map Z.faults salts.old) (map Z.faults salts.new) door) end)
        ((outs.new ≡ outs.old) × (doors.new ≡ doors.old) × (salts.new ≡ salts.old)) result }
    ensures later { C.faults config.old ≤ C.faults config.new }
    ensures held { C.held config.new ≡ C.held config.old }
{
    match read_whole(alloc, config, 1) {
        Ok(text) => serve_text(rt, alloc, text.bytes(), outs, doors, salts),
        Err(ReadWholeError::Failed) => ServeAnswer::ReadConfig,
        Err(ReadWholeError::Memory) => ServeAnswer::Memory,
    }
}

/// Whether a command is `serve`.
fn is_serve(command: &Command) -> bool
    ensures { result ≡ call.is_serve command.now }
{
    matches!(command, Command::Serve { .. })
}

/// Does what the words ask.
fn serve_words<R: Threads + Wait + Sync, C: Source, D: Disk + Send, G: Door + Send, Z: Salt + Send>(
    rt: &R,
    alloc: Global,
    words: &[Text],
    config: &mut C,
    outs: &mut [D],
    doors: &mut [G],
    salts: &mut [Z],
) -> ServeAnswer
    requires config { 1 ≤ length (C.sizes config.old) }
    requires outs { length outs.old ≡ length doors.old }
    requires salts { length salts.old ≡ length doors.old }
    requires few { 1 + length doors.old < 2 ^ 32 }
    ensures answer { IsServeAnswer words.now (file_of (C.held config.old) 1) (IsTrue C.tells) (Rose (C.faults config.old) (C.faults config.new))
        (λ (users : List User) (end : ServeEnd). (0 < length doors.old → (first : FirstEnd) × (end ≡ serve_end first.door first.ending)
        × ServesDoors (IsDoorServed D.tells D.seen D.synced D.pending D.may_leave D.moment D.left_since D.faults G.tells G.shut G.handed G.served G.faults Z.tells Z.drawn Z.faults users)
        1 outs.old outs.new doors.old doors.new salts.old salts.new first)
        × IsCausedEnd (AllByRecursion (λ (door : G). IsTrue (G.shut door)) doors.new)
        (λ (out : ℕ). RoseAt (map D.faults outs.old) (map D.faults outs.new) out)
        (λ (out : ℕ) (fault : OpenFault). IsSoAt (λ (image : Image). IsTrue D.tells → IsRefusedShelf image fault) (map D.seen outs.old) out)
        (λ (out : ℕ). IsSoAt (λ (image : Image). IsTrue D.tells → HasTornFile image) (map D.seen outs.old) out)
        (λ (door : ℕ). RoseAt (map G.faults doors.old) (map G.faults doors.new) door)
        (λ (door : ℕ). RoseAt (map Z.faults salts.old) (map Z.faults salts.new) door) end)
        ((outs.new ≡ outs.old) × (doors.new ≡ doors.old) × (salts.new ≡ salts.old)) result }
    ensures later { C.faults config.old ≤ C.faults config.new }
    ensures held { C.held config.new ≡ C.held config.old }
{
    let command = match command_of(alloc, words) {
        Ok(command) => command,
        Err(Refusal::Memory) => return ServeAnswer::Memory,
        Err(Refusal::Usage) => return ServeAnswer::Usage,
        Err(Refusal::Config(_)) => unreachable!(),
    };
    if !is_serve(&command) {
        return ServeAnswer::Usage;
    }
    serve_config(rt, alloc, config, outs, doors, salts)
}

/// Answers the words `serve CONFIG [--connections N]`: serves each door from the out, and under the salt, at its place, by
/// the users of the configuration, until each is shut or has failed.
///
/// `config` gives the text of the configuration as its first file. The doors are made for the plan, and told of the
/// connections, by the caller. Where the configuration names no users there is no login, and no salt is drawn. The answer's
/// line goes to `err`, and takes no memory. The result is the exit status, the first of these that holds, from above, but
/// that 0 stands for none:
///
/// | Status | Line | When |
/// |---|---|---|
/// | 2 | `cdc: usage` | the words are no command of this call |
/// | 4 | `cdc: read config` | the configuration couldn't be read |
/// | 2 | `cdc: config KEY` | the configuration is refused for this key |
/// | 5 | `cdc: disk out N` | the disk of out N failed in a session |
/// | 7 | `cdc: kept out N bad cell`, `cdc: kept out N bad front KEPT FOUND` | out N was refused in a session |
/// | 7 | `cdc: kept out N torn` | a session met with a file of out N that isn't whole |
/// | 8 | `cdc: memory` | there was no memory |
/// | 9 | `cdc: door N` | door N failed |
/// | 9 | `cdc: salt N` | the salt of door N failed |
/// | 0 | none | each door is shut |
///
/// N is the least such number, from 1. On 2, 4 and `config` no door was asked, nor on 8 before the plan stood. A line that
/// can't be written changes no status. Links are served to their ends whatever the others come to.
pub fn top_serve<
    R: Threads + Wait + Sync,
    C: Source,
    D: Disk + Send,
    G: Door + Send,
    Z: Salt + Send,
    K: Sink,
>(
    rt: &R,
    alloc: Global,
    words: &[Text],
    config: &mut C,
    outs: &mut [D],
    doors: &mut [G],
    salts: &mut [Z],
    err: &mut K,
) -> u8
    requires config { 1 ≤ length (C.sizes config.old) }
    requires outs { length outs.old ≡ length doors.old }
    requires salts { length salts.old ≡ length doors.old }
    requires few { 1 + length doors.old < 2 ^ 32 }
    // The answer, its line, and why it came: how each door was served, and what stands behind each cause.
    ensures answered { (answer : ServeAnswer) × (result ≡ serve_status answer)
        × (IsTrue K.tells → (K.written err.new ≡ K.written err.old ++ serve_line answer)
        ⊎ (WritesTo (K.written err.old) (serve_line answer) (K.written err.new) × Rose (K.faults err.old) (K.faults err.new)))
        × IsServeAnswer words.now (file_of (C.held config.old) 1) (IsTrue C.tells) (Rose (C.faults config.old) (C.faults config.new))
        (λ (users : List User) (end : ServeEnd). (0 < length doors.old → (first : FirstEnd) × (end ≡ serve_end first.door first.ending)
        × ServesDoors (IsDoorServed D.tells D.seen D.synced D.pending D.may_leave D.moment D.left_since D.faults G.tells G.shut G.handed G.served G.faults Z.tells Z.drawn Z.faults users)
        1 outs.old outs.new doors.old doors.new salts.old salts.new first)
        × IsCausedEnd (AllByRecursion (λ (door : G). IsTrue (G.shut door)) doors.new)
        (λ (out : ℕ). RoseAt (map D.faults outs.old) (map D.faults outs.new) out)
        (λ (out : ℕ) (fault : OpenFault). IsSoAt (λ (image : Image). IsTrue D.tells → IsRefusedShelf image fault) (map D.seen outs.old) out)
        (λ (out : ℕ). IsSoAt (λ (image : Image). IsTrue D.tells → HasTornFile image) (map D.seen outs.old) out)
        (λ (door : ℕ). RoseAt (map G.faults doors.old) (map G.faults doors.new) door)
        (λ (door : ℕ). RoseAt (map Z.faults salts.old) (map Z.faults salts.new) door) end)
        ((outs.new ≡ outs.old) × (doors.new ≡ doors.old) × (salts.new ≡ salts.old)) answer }

    // Where nothing failed and no output is refused, words and a configuration that are accepted are answered 0, or there
    // was no memory.
    ensures complete { IsTrue C.tells → IsServe words.now → refused_key (file_of (C.held config.old) 1) ≡ None
        → (Rose (C.faults config.old) (C.faults config.new) → ⊥)
        → ((out : ℕ) → RoseAt (map D.faults outs.old) (map D.faults outs.new) out → ⊥)
        → ((out : ℕ) (fault : OpenFault) → IsSoAt (λ (image : Image). IsTrue D.tells → IsRefusedShelf image fault) (map D.seen outs.old) out → ⊥)
        → ((out : ℕ) → IsSoAt (λ (image : Image). IsTrue D.tells → HasTornFile image) (map D.seen outs.old) out → ⊥)
        → ((door : ℕ) → RoseAt (map G.faults doors.old) (map G.faults doors.new) door → ⊥)
        → ((door : ℕ) → RoseAt (map Z.faults salts.old) (map Z.faults salts.new) door → ⊥)
        → (result ≡ 0) ⊎ (result ≡ 8) }

    ensures later { C.faults config.old ≤ C.faults config.new }
    ensures held { C.held config.new ≡ C.held config.old }
    ensures line_later { K.faults err.old ≤ K.faults err.new }
{
    let answer = serve_words(rt, alloc, words, config, outs, doors, salts);
    report(answer, err);
    status(answer)
}
