//! Two nodes merged for two outputs.

ghost use Rattle.std.specs.Prelude.{◌≡◌, ◌≤◌, ◌<◌};

use crate::merging::Merging;
use cdc_merge_stage::MergeEnd;
use cdc_rename::Names;
use std::alloc::Global;
use std::marker::Brand;
use std::sync::ledger::{Blank, Ledger};
use std::test::Fail;

/// What the nodes give, and what each output gets. A unit without rows has 118 bytes, behind a head of 123 where it begins a
/// file; the second one of a file goes past 256 bytes, so an event of 40 more closes the file.
const ROWS: &str = ". | . => .
10a =20 . | =20 . => 1@10a:1:241 .
10b =20 . | 10a =20 . => 1@10a:1:241 2@10b:1:399c .
10a 30c =40 . | 20b =40 . => 1@10a:1:241 2@20b:1:399c 3@30c:2:241 .
10a 20b 30c =40 . | 10a 20b 30c =40 . => 1@10a:1:241 2@20b:1:399c 3@30c:2:241 .
10a =10 . | =10 . => 1@10a:1:241 .
10a 20b =30 . | =15 . => 1@10a:1:241 .
10a =10 . | . > . | =10 . => . 1@10a:1:241 .
10a =10 . | =10 . > 20b =20 . | =20 . => 1@10a:1:241 . 2@20b:1:399c .
10a =10 . | =10 . > 20b =20 . | =12 . => 1@10a:1:241 . .
";

/// What each of the outputs got of some words, how the merging ended, and up to which transaction.
type Merged = ([String; 2], MergeEnd, u64);

/// The same of a merging whose outputs' lanes have room for so many items.
fn merged<L: Ledger>(
    alloc: Global,
    room: usize,
    words: String,
    blank: Blank,
) -> Result<Merged, Fail>
    requires name { blank.name ≡ L.name }
    requires parts { blank.parts ≡ L.parts }
    requires whole { 0 < L.parts }
    requires room { 1 ≤ room }
{
    let names = Names::new(alloc);
    let mut merging = Merging::<L>::new(alloc, &names, room, blank)?;
    let told = merging.run(alloc, &words)?;
    let (end, count) = (merging.end(), merging.count());
    Ok((told, end, count))
}

#[test]
fn each_output_gets_the_units_in_order(rt: HostRuntime) -> Result<(), Fail> {
    for row in ROWS.lines() {
        let (words, wanted) = row.split_once("=>").ok_or("no answer")?;
        for room in [1, 16] {
            let given = format!(in rt.alloc(); "{words}")?;
            let ([one, two], end, _count) = merged::<Brand>(
                rt.alloc(),
                room,
                given,
                Blank::new(1),
            )?;
            assert_eq!(&rt; one.as_str(), wanted, "{words}, room {room}");
            assert_eq!(&rt; two.as_str(), wanted, "{words}, room {room}");
            assert_eq!(&rt; end, MergeEnd::Whole);
        }
    }
    Ok(())
}

/// Its print has 2^28 + 1 bytes. Nothing comes behind it but the End of each window.
#[test]
fn a_transaction_that_is_too_large_ends_the_merging(rt: HostRuntime) -> Result<(), Fail> {
    let words = format!(in rt.alloc(); "10a 20b! 30c =40 . | 30c =40 . > 50d =60 . | =60 .")?;
    let ([one, two], end, count) = merged::<Brand>(rt.alloc(), 1, words, Blank::new(1))?;
    assert_eq!(&rt; one.as_str(), " 1@10a:1:241 . .");
    assert_eq!(&rt; two.as_str(), " 1@10a:1:241 . .");
    assert_eq!(&rt; count, 1);
    let (number, bytes) = (2, 268_435_457);
    assert_eq!(&rt; end, MergeEnd::TooLarge { number, bytes });
    Ok(())
}
