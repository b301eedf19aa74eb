//! The plan that a configuration gives, or the first key that is refused.

ghost use Rattle.std.specs.Prelude.{◌≡◌, ◌∷◌, [], ◌++◌, IfOk, OnOk, length};
ghost use Rattle.toml.specs.View.{view};
ghost use Rattle.cdc_config.specs.Judging.{AreExtras, AreSized, AreSizesIn, GivesTree, IsExtraSized, IsMadeOf, extra_keys, path_keys, size_keys, split_given};
ghost use Rattle.cdc_config.specs.Limits.{AreSizes, IsSplit};
ghost use Rattle.cdc_config.specs.declared.command.ConfigKey.{ConfigKey};
ghost use Rattle.cdc_config.specs.Plan.{ArePaths, IsPlanIn, IsPlanOf, Judges, JudgesText, refusal_at, refused_key, tested_keys, tree_from};
ghost use Rattle.cdc_config.specs.Tree.{GivesPart};

use crate::command::{ConfigKey, Refusal};
use crate::filing::names_of;
use crate::keys::{nodes_of, outs_of, rotation_of, split_of, task_of, users_of, window_of};
use crate::misfit::Misfit;
use crate::plan::{Paths, Plan, SplitPlan};
use crate::shape::Shape;
use crate::texts::texts_of;
use cdc_base::{Memory, Text, TextList, UserList};
use cdc_rename::Names;
use std::alloc::Global;
use std::str;
use toml::Value;

/// The most bytes of a configuration.
const CONFIG_MAX: usize = 1_048_576;

impl Misfit {
    // The refusal of a key.
    fn at(self, key: ConfigKey) -> Refusal
        ensures { result ≡ refusal_at self key }
    {
        match self {
            Misfit::Refused => Refusal::Config(key),
            Misfit::Memory => Refusal::Memory,
        }
    }
}

/// A rotation size and a window.
#[derive(Clone, Copy, Debug)]
struct Sizes {
    rotation: u64,
    window: u64,
}

// The keys `rotation` and `window`.
fn sizes_in(root: &Value) -> Result<Sizes, Refusal>
    ensures judged { Judges result (view root.now) size_keys (AreSizesIn (view root.now)) }
    ensures limits { IfOk result (λ sizes. AreSizes sizes.rotation sizes.window) }
{
    let rotation = match rotation_of(root) {
        Some(rotation) => rotation,
        None => return Err(Refusal::Config(ConfigKey::Rotation)),
    };
    match window_of(root) {
        Some(window) => Ok(Sizes { rotation, window }),
        None => Err(Refusal::Config(ConfigKey::Window)),
    }
}

// The keys `node`, `out` and `task`.
fn paths_in(alloc: Global, root: &Value) -> Result<Paths, Refusal>
    ensures judged { Judges result (view root.now) path_keys (ArePaths (view root.now)) }
    ensures limits { IfOk result AreSized }
{
    let node_files = match nodes_of(alloc, root) {
        Ok(nodes) => nodes,
        Err(misfit) => return Err(misfit.at(ConfigKey::Node)),
    };
    let outs = match outs_of(alloc, root) {
        Ok(outs) => outs,
        Err(misfit) => return Err(misfit.at(ConfigKey::Out)),
    };
    match task_of(alloc, root, outs.folders.as_slice()) {
        Ok(task_folder) => Ok(Paths {
            node_files,
            out_folders: outs.folders,
            listen: outs.listen,
            task_folder,
        }),
        Err(misfit) => Err(misfit.at(ConfigKey::Task)),
    }
}

// The folders of the outs and of the task.
fn taken_of(alloc: Global, paths: &Paths) -> Result<TextList, Memory>
    ensures { IfOk result (λ taken. taken ≡ paths.now.out_folders ++ paths.now.task_folder ∷ []) }
{
    let mut taken = texts_of(alloc, paths.out_folders.as_slice())?;
    taken.push(Text::of(alloc, paths.task_folder.as_str())?)?;
    Ok(taken)
}

/// What else a plan has.
#[derive(Debug, Drop)]
struct Extras {
    names: Names,
    users: UserList,
    split: Option<SplitPlan>,
}

// The key `split`.
fn split_in(alloc: Global, root: &Value, paths: &Paths) -> Result<Option<SplitPlan>, Misfit>
    requires paths { ArePaths (view root.now) paths.now }
    requires sized { AreSized paths.now }
    ensures split { GivesPart result (split_given (view root.now)) }
    ensures limits { IfOk result (IsSplit (length paths.now.out_folders)) }
{
    let taken = taken_of(alloc, paths)?;
    split_of(
        alloc,
        root,
        paths.out_folders.len() as u32,
        taken.as_slice(),
    )
}

// The keys `table`, `user` and `split`, and no other key.
fn extras_in(alloc: Global, root: &Value, paths: &Paths) -> Result<Extras, Refusal>
    requires paths { ArePaths (view root.now) paths.now }
    requires sized { AreSized paths.now }
    ensures judged { Judges result (view root.now) extra_keys (AreExtras (view root.now)) }
    ensures limits { IfOk result (λ extras. IsExtraSized (length paths.now.out_folders) extras) }
{
    let names = match names_of(alloc, root) {
        Ok(names) => names,
        Err(misfit) => return Err(misfit.at(ConfigKey::Table)),
    };
    let users = match users_of(alloc, root) {
        Ok(users) => users,
        Err(misfit) => return Err(misfit.at(ConfigKey::User)),
    };
    let split = match split_in(alloc, root, paths) {
        Ok(split) => split,
        Err(misfit) => return Err(misfit.at(ConfigKey::Split)),
    };
    if !Shape::Top.fits(root) {
        return Err(Refusal::Config(ConfigKey::Unknown));
    }
    Ok(Extras {
        names,
        users,
        split,
    })
}

// The plan of these parts.
fn plan_with(sizes: Sizes, paths: Paths, extras: Extras) -> Plan
    requires sizes { AreSizes sizes.rotation sizes.window }
    requires paths { AreSized paths }
    requires extras { IsExtraSized (length paths.out_folders) extras }
    ensures { IsMadeOf sizes paths extras result }
{
    Plan {
        rotation: sizes.rotation,
        window: sizes.window,
        nodes: paths.node_files.len() as u32,
        outs: paths.out_folders.len() as u32,
        names: extras.names,
        paths,
        users: extras.users,
        split: extras.split,
    }
}

// The plan of a tree.
fn plan_in(alloc: Global, root: &Value) -> Result<Plan, Refusal>
    ensures { Judges result (view root.now) tested_keys (IsPlanIn (view root.now)) }
{
    let sizes = match sizes_in(root) {
        Ok(sizes) => sizes,
        Err(refusal) => return Err(refusal),
    };
    let paths = match paths_in(alloc, root) {
        Ok(paths) => paths,
        Err(refusal) => return Err(refusal),
    };
    match extras_in(alloc, root, &paths) {
        Ok(extras) => Ok(plan_with(sizes, paths, extras)),
        Err(refusal) => Err(refusal),
    }
}

// The tree of a text, which is a table.
#[tactic(auto, unfolding(crate::specs::Plan::tree_from))]
fn tree_of(alloc: Global, config: &[u8]) -> Result<Value, Misfit>
    ensures { GivesTree result (tree_from config.now) }
{
    if config.len() > CONFIG_MAX {
        return Err(Misfit::Refused);
    }
    let Ok(text) = str::from_utf8(config) else {
        return Err(Misfit::Refused);
    };
    match toml::table_from_str(alloc, text) {
        Ok(table) => Ok(Value::Table(table)),
        Err(error) if error.is_memory() => Err(Misfit::Memory),
        Err(_) => Err(Misfit::Refused),
    }
}

// The plan of a configuration.
fn judged(alloc: Global, config: &[u8]) -> Result<Plan, Refusal>
    ensures { JudgesText result config.now }
{
    match tree_of(alloc, config) {
        Ok(root) => plan_in(alloc, &root),
        Err(misfit) => Err(misfit.at(ConfigKey::Toml)),
    }
}

/// The plan of a configuration: TOML of at most 1,048,576 bytes, with the keys of `docs/FORMATS.md`.
///
/// `Config` comes exactly where a key is refused, and names the first in the order of `ConfigKey`; on a configuration
/// that is accepted the answer is its plan, or `Memory`.
pub fn plan_of(alloc: Global, config: &[u8]) -> Result<Plan, Refusal>
    ensures plan { IfOk result (IsPlanOf config.now) }
    ensures accepted { OnOk result (refused_key config.now ≡ None) }
    ensures refused { (key : ConfigKey) → result ≡ Err (Refusal.Config key) → refused_key config.now ≡ Some key }
    ensures no_usage { result ≡ Err Refusal.Usage → ⊥ }
{
    judged(alloc, config)
}
