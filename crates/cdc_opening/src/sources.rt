//! The opening of sources.

ghost use Rattle.std.specs.Prelude.{◌≡◌, ℕ, ◌≤◌, ◌<◌, IsTrue, length, map, IfOk, IfErr, IfSome, OnOk, OnErr, Err, min};
ghost use Rattle.std.specs.List.{AllZip, AllByRecursion};
ghost use Rattle.cdc_outside.specs.Count.{Rose};
ghost use Rattle.cdc_outside.specs.Source.{size_of};
ghost use Rattle.cdc_records.specs.Checkpoint.{IsCut};
ghost use Rattle.cdc_opening.specs.Answers.{used_point};
ghost use Rattle.cdc_opening.specs.Lists.{DeviceRoseAt};
ghost use Rattle.cdc_opening.specs.OpenSources.{end_of_file, EndsBeforePlace, CanReadFrom, NoneEndsBefore, IsSourceKept};
ghost use Rattle.cdc_opening.specs.SourceAnswers.{IsWholeAnswer, IsNodeAnswer, AreNodesAnswer, IsSourcesAnswer};

use crate::opened::Opened;
use crate::outcome::Outcome;
use cdc_base::Place;
use cdc_model::NodeCut;
use cdc_outside::{Failed, Source};

// Where a file of a log ends; where it isn't there, where the last one does.
fn end_of<S: Source>(source: &mut S, files: u32, file: u32) -> Result<Place, Failed>
    requires files { files ≡ length (S.sizes source.old) }
    requires first { 1 ≤ file }
    ensures exact { IsTrue S.tells → IfOk result (λ end. end ≡ end_of_file (S.held source.old) file) }
    ensures file { IfOk result (λ end. end.file ≡ min file files) }
    ensures within { IfOk result (λ end. 1 ≤ end.file → end.at ≤ size_of (S.sizes source.old) end.file) }
    ensures kept { IsSourceKept S.held S.sizes S.lowest S.highest S.faults source.old source.new }
    ensures failed { OnErr result (Rose (S.faults source.old) (S.faults source.new)) }
{
    let last = file.min(files);
    if last == 0 {
        return Ok(Place { file: 0, at: 0 });
    }
    match source.length(last) {
        Ok(at) => Ok(Place { file: last, at }),
        Err(Failed) => Err(Failed),
    }
}

// Finds whether a log of so many files has a place from which it is read on.
fn check_place<S: Source>(
    source: &mut S,
    node: u32,
    files: u32,
    cut: &NodeCut,
) -> Result<(), Outcome>
    requires files { files ≡ length (S.sizes source.old) }
    requires first { 1 ≤ cut.now.place.file }
    requires behind_start { 1 < cut.now.entry }
    ensures there { IsTrue S.tells → OnOk result (EndsBeforePlace (S.held source.old) cut.now → ⊥) }
    ensures can { OnOk result (CanReadFrom (S.sizes source.old) cut.now) }
    ensures refused { IfErr result (λ e. IsNodeAnswer S.tells (S.held source.old) cut.now node e) }
    ensures kept { IsSourceKept S.held S.sizes S.lowest S.highest S.faults source.old source.new }
    ensures failed { (number : ℕ) → result ≡ Err (Outcome.Read number) → Rose (S.faults source.old) (S.faults source.new) }
{
    let kept = cut.place;
    let Ok(given) = end_of(source, files, kept.file) else {
        return Err(Outcome::Read { node });
    };
    if given.file < kept.file || given.at < kept.at {
        return Err(Outcome::Behind { node, kept, given });
    }
    Ok(())
}

// Opens the source of a node that is read from its start.
fn open_whole<S: Source>(source: &mut S, node: u32) -> Result<u32, Outcome>
    ensures files { IfOk result (λ files. files ≡ length (S.sizes source.old)) }
    ensures refused { IfErr result (λ e. IsWholeAnswer node e) }
    ensures kept { IsSourceKept S.held S.sizes S.lowest S.highest S.faults source.old source.new }
    ensures failed { (number : ℕ) → result ≡ Err (Outcome.Read number) → Rose (S.faults source.old) (S.faults source.new) }
{
    match source.files() {
        Ok(files) => Ok(files),
        Err(Failed) => Err(Outcome::Read { node }),
    }
}

// Opens the source of a node that is read from a restart point.
fn open_at<S: Source>(source: &mut S, node: u32, cut: &NodeCut) -> Result<(), Outcome>
    requires first { 1 ≤ cut.now.place.file }
    ensures there { IsTrue S.tells → OnOk result (EndsBeforePlace (S.held source.old) cut.now → ⊥) }
    ensures can { OnOk result (CanReadFrom (S.sizes source.old) cut.now) }
    ensures refused { IfErr result (λ e. IsNodeAnswer S.tells (S.held source.old) cut.now node e) }
    ensures kept { IsSourceKept S.held S.sizes S.lowest S.highest S.faults source.old source.new }
    ensures failed { (number : ℕ) → result ≡ Err (Outcome.Read number) → Rose (S.faults source.old) (S.faults source.new) }
{
    let files = match open_whole(source, node) {
        Ok(files) => files,
        Err(outcome) => return Err(outcome),
    };
    if cut.entry <= 1 {
        return Ok(());
    }
    check_place(source, node, files, cut)
}

// Opens the sources of nodes that are read from their starts, in order.
fn open_all_whole<S: Source>(sources: &mut [S]) -> Result<(), Outcome>
    requires { length sources.old ≤ 256 }
    ensures refused { IfErr result (λ e. (number : ℕ) × IsWholeAnswer number e) }
    ensures kept { AllZip (IsSourceKept S.held S.sizes S.lowest S.highest S.faults) sources.old sources.new }
    ensures failed { (number : ℕ) → result ≡ Err (Outcome.Read number) → DeviceRoseAt (map S.faults sources.old) (map S.faults sources.new) number }
{
    for index in 0..sources.len() {
        let _files = match open_whole(&mut sources[index], index as u32 + 1) {
            Ok(files) => files,
            Err(outcome) => return Err(outcome),
        };
    }
    Ok(())
}

// Opens the sources of nodes that are read from these restart points, in order.
fn open_all_at<S: Source>(sources: &mut [S], cuts: &[NodeCut]) -> Result<(), Outcome>
    requires few { length sources.old ≤ 256 }
    requires many { length cuts.now ≡ length sources.old }
    requires cuts { AllByRecursion IsCut cuts.now }
    ensures there { IsTrue S.tells → OnOk result (NoneEndsBefore (length sources.old) (map S.held sources.old) cuts.now) }
    ensures can { OnOk result (AllZip (λ source cut. CanReadFrom (S.sizes source) cut) sources.old cuts.now) }
    ensures refused { IfErr result (λ e. AreNodesAnswer S.tells (map S.held sources.old) cuts.now e) }
    ensures kept { AllZip (IsSourceKept S.held S.sizes S.lowest S.highest S.faults) sources.old sources.new }
    ensures failed { (number : ℕ) → result ≡ Err (Outcome.Read number) → DeviceRoseAt (map S.faults sources.old) (map S.faults sources.new) number }
{
    for index in 0..sources.len() {
        let _opened = match open_at(&mut sources[index], index as u32 + 1, &cuts[index]) {
            Ok(opened) => opened,
            Err(outcome) => return Err(outcome),
        };
    }
    Ok(())
}

/// Opens each source, in order, up to the first that can't be read from where the pass goes on.
pub(crate) fn open_sources<S: Source>(sources: &mut [S], opened: &Opened) -> Result<(), Outcome>
    requires few { length sources.old ≤ 256 }
    requires many { IfSome opened.now.kept (λ point. length point.nodes ≡ length sources.old) }
    requires cuts { IfSome opened.now.kept (λ point. AllByRecursion IsCut point.nodes) }
    ensures there { IsTrue S.tells → OnOk result (IfSome (used_point opened.now.start opened.now.kept) (λ point. NoneEndsBefore (length sources.old) (map S.held sources.old) point.nodes)) }
    ensures can { OnOk result (IfSome (used_point opened.now.start opened.now.kept) (λ point. AllZip (λ source cut. CanReadFrom (S.sizes source) cut) sources.old point.nodes)) }
    ensures refused { IfErr result (λ e. IsSourcesAnswer S.tells (map S.held sources.old) (used_point opened.now.start opened.now.kept) e) }
    ensures kept { AllZip (IsSourceKept S.held S.sizes S.lowest S.highest S.faults) sources.old sources.new }
    ensures failed { (number : ℕ) → result ≡ Err (Outcome.Read number) → DeviceRoseAt (map S.faults sources.old) (map S.faults sources.new) number }
{
    match opened.used() {
        None => open_all_whole(sources),
        Some(point) => open_all_at(sources, point.nodes.as_slice()),
    }
}
