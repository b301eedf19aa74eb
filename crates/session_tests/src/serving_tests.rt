//! Sessions over memory: dumps from each place, names, cuts of a client's bytes, calls that fail.

use cdc_dumper::OpenFault;
use cdc_memory::{MemDisk, MemLink};
use cdc_outside::{DiskFile, write_through};
use cdc_session::{SessionEnd, session};
use sha1::Sha1;
use std::alloc::Global;
use std::test::Fail;

/// What each output file begins with.
const HEAD: &str =
    "fe62696e000000000f01000000770000007b00000000000400352e372e302d63646300000000000000000000000000000000000000000000000000000000000000000000000000000000000000000013380d0008001200040404041200005f00041a08000000080808020000000a0a0a2a2a001234000000000000";

/// The rest of three output files: two of two transactions and a rotation, one of one transaction.
const BODIES: [&str; 3] = [
    "05000000020100000026000000a100000000000000000000000000000000000000424547494e050000001d0100000035000000d60000000000214354533a3a303030303030303030303030303030303031303a3a303a3a363733310500000010010000001b000000f100000000000100000000000000050000000201000000260000001701000000000000000000000000000000000000424547494e050000001d01000000350000004c0100000000214354533a3a303030303030303030303030303030303032303a3a303a3a363733320500000010010000001b0000006701000000000200000000000000000000000401000000280000008f0100000000040000000000000062696e6c6f672e303030303032",
    "05000000020100000026000000a100000000000000000000000000000000000000424547494e050000001d0100000035000000d60000000000214354533a3a303030303030303030303030303030303033303a3a303a3a363733330500000010010000001b000000f100000000000300000000000000050000000201000000260000001701000000000000000000000000000000000000424547494e050000001d01000000350000004c0100000000214354533a3a303030303030303030303030303030303034303a3a303a3a363733340500000010010000001b0000006701000000000400000000000000000000000401000000280000008f0100000000040000000000000062696e6c6f672e303030303033",
    "05000000020100000026000000a100000000000000000000000000000000000000424547494e050000001d0100000035000000d60000000000214354533a3a303030303030303030303030303030303035303a3a303a3a363733350500000010010000001b000000f100000000000500000000000000",
];

/// The slot of an output that has these three files, and of one whose first file was dropped.
const ALL: &str =
    "0105000000000000001a000000000000000105000000000000000300000000000000f10000000000000000";

const KEPT: &str =
    "01060000000000000036000000000000000205000000000000000300000000000000f1000000000000000002000000000000000200000000000000320000000000000000026735";

/// Dumps by file, place and flags: the length and the digest of the reply.
const DUMPS: &str = "1 4 0 = 1262 52d2b85a4e9de21e42dc47ac02080e187c2be6d3
1 4 1 = 1271 2e375fdd2a0fe7f8400d610b1b7dc4ea9c3b4300
1 123 0 = 1262 a20a866c7fc4c1de7130e4740b4bc95f21b29212
1 123 1 = 1271 9caa596dafc7368c259bb3c5f89f42f0a9f55656
1 161 0 = 1219 65987acff0757c52cd48eb5f385add47d603e2cd
1 161 1 = 1228 abf6ec850e82e709b57fce39844bf00546bce0a8
1 214 0 = 1161 20764a9f5247691b607867eef758bf9ad6a28172
1 214 1 = 1170 075bee368909ca7e071f52f060bcf1081a212bfa
1 241 0 = 1129 c5b7cba3cd0ef29f2c92875ccef6371b8b7c18b6
1 241 1 = 1138 12825a064425c4c72a8abb156e904ceb74cdc755
1 279 0 = 1086 17281a96fcdca437a405b41d42c05177bb17d666
1 279 1 = 1095 177374c97398e636afb931bdeb80e8ad7e4cab12
1 332 0 = 1028 84a27a13f2f5bf3464fa2a707736872b43673d06
1 332 1 = 1037 cfb26179013fe0cf6c6d20b63811768ee5c8eadb
1 359 0 = 996 052f4400eb8ddb85f4dccd390081ca47abe543b5
1 359 1 = 1005 1cc15df9d197204706ad42807fb2b99fccbdc4a8
1 399 0 = 951 3dccc8c82d33d56aeafc347e9f277cec1e22b2ec
1 399 1 = 960 8c7d99801642dbc94e79ccfddfc69357f5e69c81
2 4 0 = 782 79117b5d2f5ff109658d98bc82f02aa2d84fbd04
2 4 1 = 791 c6d5c4ce824d5d2e1ed0368b4d1b285aa7dcca3d
2 123 0 = 782 bd567f46513ac1cf42c75d2a00adb925fe74d92b
2 123 1 = 791 548eb42758b5a7067dae0aabe860d831690cf525
2 161 0 = 739 d2fffa48ea19369ded54dec1cdf7038730533e94
2 161 1 = 748 335c93301d498ac228b224f88b8af37dd0f32b07
2 214 0 = 681 fe54c9028480e64116d7bd3cd9d04ffced61007a
2 214 1 = 690 91ce1ff1d50202040dfba0ec1a58c8a2113e056e
2 241 0 = 649 5b72b069b2192d0b53d0e75b57e59a74767096bb
2 241 1 = 658 eea8de8392cf58c3e4072418d0905637bebd19ef
2 279 0 = 606 80c33815018cf9ee07abe70a8c4be5a9282a5688
2 279 1 = 615 eeef5fdc81b4518a00b968ce00c6798eb115eb65
2 332 0 = 548 220401c4f945163043069d8636af999aefe7a88a
2 332 1 = 557 7a4de407933d05185a2f6cca23be6e54cabf3cb3
2 359 0 = 516 332bd395664e27b4f29fa39a9dc2daac56f74dbb
2 359 1 = 525 6fa3fca2485ac0b4c60b763c80d89da7b00396c0
2 399 0 = 471 08a828ce34f82d4085c357009cc6fa9d212929c6
2 399 1 = 480 d1f52ca56b4970aef1daebe5325a3c4a86e4df32
3 4 0 = 302 b29c35562fa9bd7c68a88193317ce3c0b8ff944e
3 4 1 = 311 34c356db192b7c89532455a2f19ade4ab23eab63
3 123 0 = 302 8f2ae57942e25cfa529ea264d0b95f80b7c78aed
3 123 1 = 311 2c135ff05c6b5d71b2ce023a745826fcf9404a9b
3 161 0 = 259 98e12e4adfc12c2a3980534ec007dd2f73debedd
3 161 1 = 268 5ce183c271fa0666dc0bb6690b1c4deb93bfe375
3 214 0 = 201 1225ee3d0a676e8039f5c8ca38944672467af8c2
3 214 1 = 210 74b06a01d4cd3c431cbc6a04d9358c3c667f26e7
3 241 0 = 169 260422b8f891b1e471976ea1114aeb0a6cac54a8
3 241 1 = 178 2f9d904957cb9fb0d5c3ecea58238758132e35ef";

/// The places from which a dump of a file may begin; the third file has the first five.
const PLACES: [u32; 9] = [4, 123, 161, 214, 241, 279, 332, 359, 399];

/// Dumps by name, of all three files and without the first: the lengths and the digests of both replies.
const NAMES: &str =
    "- = 1271 2e375fdd2a0fe7f8400d610b1b7dc4ea9c3b4300 = 791 c6d5c4ce824d5d2e1ed0368b4d1b285aa7dcca3d
binlog.000001 = 1271 2e375fdd2a0fe7f8400d610b1b7dc4ea9c3b4300 = 39 4007c2b968a531510d765dc8dff666d427955ab4
binlog.000002 = 791 c6d5c4ce824d5d2e1ed0368b4d1b285aa7dcca3d = 791 c6d5c4ce824d5d2e1ed0368b4d1b285aa7dcca3d
binlog.000003 = 311 34c356db192b7c89532455a2f19ade4ab23eab63 = 311 34c356db192b7c89532455a2f19ade4ab23eab63
binlog.000004 = 39 4007c2b968a531510d765dc8dff666d427955ab4 = 39 4007c2b968a531510d765dc8dff666d427955ab4
binlog.000000 = 39 4007c2b968a531510d765dc8dff666d427955ab4 = 39 4007c2b968a531510d765dc8dff666d427955ab4
binlog.2 = 39 4007c2b968a531510d765dc8dff666d427955ab4 = 39 4007c2b968a531510d765dc8dff666d427955ab4
binlog.0000002 = 39 4007c2b968a531510d765dc8dff666d427955ab4 = 39 4007c2b968a531510d765dc8dff666d427955ab4
Binlog.000002 = 39 4007c2b968a531510d765dc8dff666d427955ab4 = 39 4007c2b968a531510d765dc8dff666d427955ab4
binlog = 39 4007c2b968a531510d765dc8dff666d427955ab4 = 39 4007c2b968a531510d765dc8dff666d427955ab4";

/// The reply where there is no such place.
const NO_PLACE: &str =
    "23000001ffd4042348593030306e6f2073756368207075626c697368656420706f736974696f6e";

/// Five commands: a ping, a dump under the number 250, a registration, a dump of no file, the end.
const STREAM: &str =
    "010000000e0b0000fa1204000000010007000000040000071561626318000000120400000001000700000062696e6c6f672e3030303030390100000301";

/// Where each command ends, and how long the reply is by then.
const COMMANDS: [(usize, usize); 5] = [(5, 11), (20, 1282), (28, 1293), (56, 1332), (61, 1332)];

/// The digest of the reply to all five.
const REPLY: &str = "a06259bc87ec648a6cbf163f731653803de5161d";

/// How a session ended, and what it wrote.
#[derive(Debug, Drop)]
struct Served {
    end: SessionEnd,
    reply: Vec<u8>,
}

// The bytes of an output file.
fn file_of(alloc: Global, body: &str) -> Result<Vec<u8>, Fail> {
    let mut bytes = hex::decode(alloc, HEAD)?;
    bytes.extend_from_slice(hex::decode(alloc, body)?.as_slice())?;
    Ok(bytes)
}

// An output with these files and the slot of its Front; of one file only so many bytes are there.
fn output_with(
    alloc: Global,
    slot: &str,
    fails: &[u64],
    short: u64,
    to: usize,
) -> Result<MemDisk, Fail> {
    let mut disk = MemDisk::new(alloc, 3, 1_000, 20, fails)?;
    for (body, number) in BODIES.iter().zip(1..4u64) {
        let mut bytes = file_of(alloc, body)?;
        if number == short {
            bytes.truncate(to);
        }
        write_through(&mut disk, DiskFile::Log(number), 0, bytes.as_slice())?;
    }
    let slot = hex::decode(alloc, slot)?;
    write_through(&mut disk, DiskFile::SlotA, 0, slot.as_slice())?;
    Ok(disk)
}

// An output with these files and the slot of its Front.
fn output(alloc: Global, slot: &str, fails: &[u64]) -> Result<MemDisk, Fail> {
    output_with(alloc, slot, fails, 0, 0)
}

// The session of a client that sends these bytes.
fn serve(alloc: Global, disk: &mut MemDisk, input: &[u8], fails: &[u64]) -> Result<Served, Fail> {
    let mut link = MemLink::new(alloc, input, 100_000, fails)?;
    let end = session(alloc, disk, &mut link);
    let reply = Vec::from_slice(alloc, link.written())?;
    Ok(Served { end, reply })
}

// The request for a dump.
fn dump_request(alloc: Global, place: u32, flags: u8, name: &str) -> Result<Vec<u8>, Fail> {
    let mut bytes = Vec::new(alloc);
    let length = (name.len() as u64).saturating_add(11);
    bytes.extend_from_slice(&length.to_le_bytes()[..3])?;
    bytes.extend_from_slice(&[0, 0x12])?;
    bytes.extend_from_slice(&place.to_le_bytes())?;
    bytes.extend_from_slice(&[flags, 0, 7, 0, 0, 0])?;
    bytes.extend_from_slice(name.as_bytes())?;
    Ok(bytes)
}

// The name of one of the three files.
fn name_of(file: &str) -> Result<&'static str, Fail> {
    match file {
        "1" => Ok("binlog.000001"),
        "2" => Ok("binlog.000002"),
        "3" => Ok("binlog.000003"),
        _ => Err("a file")?,
    }
}

// A reply's length and its digest.
fn shown(alloc: Global, reply: &[u8]) -> Result<String, Fail> {
    let digest = hex::encode(alloc, &Sha1::digest(reply))?;
    Ok(format!(in alloc; "{} {digest}", reply.len())?)
}

// The reply to a dump over an output.
fn dumped(alloc: Global, slot: &str, request: &[u8]) -> Result<Served, Fail> {
    let mut disk = output(alloc, slot, &[])?;
    serve(alloc, &mut disk, request, &[])
}

// One line of the table of dumps.
fn dump_line(alloc: Global, dump: &str) -> Result<String, Fail> {
    let mut words = dump.split(' ');
    let name = name_of(words.next().ok_or("a file")?)?;
    let place: u32 = words.next().ok_or("a place")?.parse()?;
    let flags: u8 = words.next().ok_or("flags")?.parse()?;
    let request = dump_request(alloc, place, flags, name)?;
    let served = dumped(alloc, ALL, request.as_slice())?;
    if served.end != SessionEnd::Closed {
        return Err("another end")?;
    }
    shown(alloc, served.reply.as_slice())
}

#[test]
fn dumps_begin_at_each_events_end(rt: HostRuntime) -> Result<(), Fail> {
    for line in DUMPS.lines() {
        let (dump, wanted) = line.split_once(" = ").ok_or("a line")?;
        let found = dump_line(rt.alloc(), dump)?;
        assert!(rt; found.as_str() == wanted, "{dump}: {found} for {wanted}");
    }
    Ok(())
}

// Whether a dump of a file from a place is refused.
fn is_refused(alloc: Global, file: &str, place: u32) -> Result<bool, Fail> {
    let request = dump_request(alloc, place, 0, name_of(file)?)?;
    let served = dumped(alloc, ALL, request.as_slice())?;
    let reply = hex::encode(alloc, served.reply.as_slice())?;
    Ok(served.end == SessionEnd::Closed && reply.as_str() == NO_PLACE)
}

#[test]
fn dumps_from_other_places_are_refused(rt: HostRuntime) -> Result<(), Fail> {
    for place in 0..402u32 {
        let begins = PLACES.contains(&place);
        for file in ["1", "2", "3"] {
            let wanted = !begins || (file == "3" && place > 241);
            let found = is_refused(rt.alloc(), file, place)?;
            assert!(rt; found == wanted, "{file} at {place}");
        }
    }
    Ok(())
}

// The length and the digest of the reply to a dump by name.
fn by_name(alloc: Global, slot: &str, name: &str) -> Result<String, Fail> {
    let name = if name == "-" { "" } else { name };
    let request = dump_request(alloc, 4, 1, name)?;
    let served = dumped(alloc, slot, request.as_slice())?;
    shown(alloc, served.reply.as_slice())
}

// Whether a line of the table of names holds.
fn names_agree(alloc: Global, line: &str) -> Result<bool, Fail> {
    let (name, wanted) = line.split_once(" = ").ok_or("a line")?;
    let (all, kept) = wanted.split_once(" = ").ok_or("two replies")?;
    let of_all = by_name(alloc, ALL, name)?;
    let of_kept = by_name(alloc, KEPT, name)?;
    Ok(of_all.as_str() == all && of_kept.as_str() == kept)
}

#[test]
fn names_are_found_among_the_files_that_are_kept(rt: HostRuntime) -> Result<(), Fail> {
    for line in NAMES.lines() {
        assert!(rt; names_agree(rt.alloc(), line)?, "{line}");
    }
    Ok(())
}

// How long the reply is, and how the session ends, where the stream of commands is cut.
fn cut_at(cut: usize) -> (usize, SessionEnd) {
    let mut length = 0;
    let mut end = SessionEnd::Closed;
    for (place, reply) in COMMANDS {
        if place <= cut {
            length = reply;
        }
    }
    if !COMMANDS.iter().any(|command| command.0 == cut) && cut > 0 {
        end = SessionEnd::BadPacket;
    }
    if cut == 61 {
        end = SessionEnd::Quit;
    }
    (length, end)
}

#[test]
fn each_cut_of_five_commands_ends_as_it_must(rt: HostRuntime) -> Result<(), Fail> {
    let stream = hex::decode(rt.alloc(), STREAM)?;
    let whole = dumped(rt.alloc(), ALL, stream.as_slice())?;
    let digest = shown(rt.alloc(), whole.reply.as_slice())?;
    let wanted = format!(in rt.alloc(); "1332 {REPLY}")?;
    assert!(rt; digest.as_str() == wanted.as_str(), "{digest}");
    for cut in 0..62usize {
        let served = dumped(rt.alloc(), ALL, stream.as_slice().get(..cut).unwrap_or(&[]))?;
        let (length, end) = cut_at(cut);
        let front = whole.reply.as_slice().get(..length).unwrap_or(&[]);
        assert!(rt; served.end == end, "{:?} at {cut}", served.end);
        assert!(rt; served.reply.as_slice() == front, "the reply at {cut}");
    }
    Ok(())
}

#[test]
fn a_call_of_the_link_that_fails_ends_the_session(rt: HostRuntime) -> Result<(), Fail> {
    let stream = hex::decode(rt.alloc(), STREAM)?;
    let whole = dumped(rt.alloc(), ALL, stream.as_slice())?;
    // Two reads and a write a command, the last one without a write.
    for call in 1..15u64 {
        let mut disk = output(rt.alloc(), ALL, &[])?;
        let served = serve(rt.alloc(), &mut disk, stream.as_slice(), &[call])?;
        let found = served.reply.as_slice();
        let front = whole.reply.as_slice().get(..found.len()).unwrap_or(&[]);
        assert!(rt;
            served.end == SessionEnd::LinkFault,
            "{:?} at call {call}",
            served.end
        );
        assert!(rt; found == front, "the reply at call {call}");
    }
    Ok(())
}

#[test]
fn a_call_of_the_disk_that_fails_ends_the_session(rt: HostRuntime) -> Result<(), Fail> {
    let request = dump_request(rt.alloc(), 123, 0, "binlog.000001")?;
    let whole = dumped(rt.alloc(), ALL, request.as_slice())?;
    let mut call = 9u64;
    let mut failed = 0;
    // The output is made by the first eight calls.
    for _ in 0..100 {
        let mut disk = output(rt.alloc(), ALL, &[call])?;
        let served = serve(rt.alloc(), &mut disk, request.as_slice(), &[])?;
        if served.end == SessionEnd::Closed {
            break;
        }
        let found = served.reply.as_slice();
        let front = whole.reply.as_slice().get(..found.len()).unwrap_or(&[]);
        assert!(rt;
            served.end == SessionEnd::DiskFault,
            "{:?} at call {call}",
            served.end
        );
        assert!(rt; found == front, "the reply at call {call}");
        call = call.saturating_add(1);
        failed = 1i32.saturating_add(failed);
    }
    assert!(rt; failed > 8 && failed < 100, "{failed} calls");
    Ok(())
}

// The end of a session that asks for a dump, where of one file only so many bytes are there.
fn end_over(alloc: Global, slot: &str, number: u64, to: usize) -> Result<SessionEnd, Fail> {
    let mut disk = output_with(alloc, slot, &[], number, to)?;
    let request = dump_request(alloc, 4, 1, "")?;
    Ok(serve(alloc, &mut disk, request.as_slice(), &[])?.end)
}

#[test]
fn torn_files_and_refused_outputs_end_the_session(rt: HostRuntime) -> Result<(), Fail> {
    for number in 1..3u64 {
        for to in [0, 3, 22, 398] {
            let end = end_over(rt.alloc(), ALL, number, to)?;
            assert!(rt;
                end == SessionEnd::Torn,
                "{end:?} for file {number} of {to} bytes"
            );
        }
    }
    let end = end_over(rt.alloc(), ALL, 3, 240)?;
    let short = SessionEnd::Kept(OpenFault::BadFront {
        kept: 241,
        found: 240,
    });
    assert!(rt; end == short, "{end:?}");
    let end = end_over(
        rt.alloc(),
        "0105000000000000001b00000000000000010500",
        3,
        241,
    )?;
    assert!(rt;
        end == SessionEnd::Kept(OpenFault::BadCell(DiskFile::SlotA)),
        "{end:?}"
    );
    let end = end_over(rt.alloc(), "", 3, 241)?;
    assert!(rt; end == SessionEnd::Closed, "{end:?} with no Front");
    Ok(())
}

#[test]
fn each_of_many_requests_is_answered(rt: HostRuntime) -> Result<(), Fail> {
    let mut stream = Vec::new(rt.alloc());
    for number in 0..2_000u32 {
        stream.extend_from_slice(&[1, 0, 0, (number % 256) as u8, 0x0e])?;
    }
    let served = dumped(rt.alloc(), ALL, stream.as_slice())?;
    assert!(rt; served.end == SessionEnd::Closed, "{:?}", served.end);
    assert!(rt;
        served.reply.len() == 22_000,
        "{} bytes",
        served.reply.len()
    );
    for (packet, number) in served.reply.as_slice().chunks(11).zip(1..2_001u32) {
        let wanted = [7, 0, 0, (number % 256) as u8, 0, 0, 0, 2, 0, 0, 0];
        assert!(rt; packet == wanted.as_slice(), "{number}");
    }
    Ok(())
}
