//! The keys at the top of a configuration, one by one.

ghost use Rattle.std.specs.Prelude.{◌≡◌, ◌≤◌, IfOk, IfSome, codes, not, length, option_map};
ghost use Rattle.toml.specs.Data.{get};
ghost use Rattle.std.specs.Option.{ForSome};
ghost use Rattle.std.specs.List.{list_all};
ghost use Rattle.toml.specs.View.{view};
ghost use Rattle.cdc_config.specs.Keys as keys;
ghost use Rattle.cdc_config.specs.Limits.{IsSplitInto, IsWithin};
ghost use Rattle.cdc_config.specs.Tree as tree;
ghost use Rattle.cdc_config.specs.Tree.{GivesPart};

use crate::misfit::Misfit;
use crate::parts::{OutTable, path_at};
use crate::plan::{SplitPlan, TextLists};
use crate::shape::Shape;
use crate::tree::{are_distinct, array_of, is_among, value_at, whole_number};
use cdc_base::{Items, Memory, Rename, RenameList, Text, TextList, User, UserList};
use std::alloc::Global;
use toml::Value;

/// The most nodes and outs.
const NODES_MAX: usize = 256;

const OUTS_MAX: usize = 4;

/// The most rules.
const RULES_MAX: usize = 65_536;

/// The most users.
const USERS_MAX: usize = 256;

/// The fewest and the most folders of a split.
const STREAMS_MIN: usize = 2;

const STREAMS_MAX: usize = 16;

// A number at a key, or a default where it isn't there.
fn setting(root: &Value, key: &str, default: u64, least: u64, most: u64) -> Option<u64>
    requires { IsWithin least most default }
    ensures number { result ≡ keys.setting default least most (get key.now (view root.now)) }
    ensures size { IfSome result (IsWithin least most) }
{
    match value_at(root, key) {
        Some(value) => whole_number(value, least, most),
        None => Some(default),
    }
}

/// From how many bytes on an output file is closed.
#[tactic(auto, unfolding(crate::specs::Keys::rotation_from))]
pub fn rotation_of(root: &Value) -> Option<u64>
    ensures number { result ≡ keys.rotation_from (view root.now) }
    ensures size { IfSome result (IsWithin 256 1073741824) }
{
    setting(root, "rotation", 536_870_912, 256, 1_073_741_824)
}

/// How many bytes of a node are read between two checkpoints.
#[tactic(auto, unfolding(crate::specs::Keys::window_from))]
pub fn window_of(root: &Value) -> Option<u64>
    ensures number { result ≡ keys.window_from (view root.now) }
    ensures size { IfSome result (IsWithin 4096 268435456) }
{
    setting(root, "window", 16_777_216, 4_096, 268_435_456)
}

/// The files of each node.
#[tactic(auto, unfolding(crate::specs::Keys::nodes_from))]
pub fn nodes_of(alloc: Global, root: &Value) -> Result<TextLists, Misfit>
    ensures nodes { GivesPart result (keys.nodes_from (view root.now)) }
    ensures size { IfOk result (λ nodes. IsWithin 1 256 (length nodes)) }
{
    match value_at(root, "node") {
        Some(nodes) => array_of::<TextList>(alloc, nodes, 1, NODES_MAX),
        None => Err(Misfit::Refused),
    }
}

/// The folders and the addresses of outs.
#[derive(Debug, Drop)]
pub struct Outs {
    pub folders: TextList,
    pub listen: TextList,
}

// The folders of outs.
fn folders_of(alloc: Global, outs: &[OutTable]) -> Result<TextList, Memory>
    ensures { IfOk result (λ folders. folders ≡ keys.folders_of outs.now) }
{
    let mut folders = TextList::new(alloc);
    for out in outs {
        folders.push(Text::of(alloc, out.folder.as_str())?)?;
    }
    Ok(folders)
}

// The addresses of outs.
fn addresses_of(alloc: Global, outs: &[OutTable]) -> Result<TextList, Memory>
    ensures { IfOk result (λ addresses. addresses ≡ keys.addresses_of outs.now) }
{
    let mut addresses = TextList::new(alloc);
    for out in outs {
        addresses.push(Text::of(alloc, out.listen.as_str())?)?;
    }
    Ok(addresses)
}

// 1 to 4 outs.
fn out_tables(alloc: Global, root: &Value) -> Result<Items<OutTable>, Misfit>
    ensures outs { GivesPart result (keys.part_at (tree.array_of 1 4 keys.out_from) (codes "out") (view root.now)) }
    ensures size { IfOk result (λ outs. IsWithin 1 4 (length outs)) }
{
    match value_at(root, "out") {
        Some(outs) => array_of::<OutTable>(alloc, outs, 1, OUTS_MAX),
        None => Err(Misfit::Refused),
    }
}

/// The folders of the outs, no two equal, and their addresses.
#[tactic(auto, unfolding(crate::specs::Keys::outs_from))]
pub fn outs_of(alloc: Global, root: &Value) -> Result<Outs, Misfit>
    ensures outs { keys.GivesOuts result (keys.outs_from (view root.now)) }
    ensures size { IfOk result (λ outs. IsWithin 1 4 (length outs.folders) × (length outs.listen ≡ length outs.folders)) }
{
    let outs = out_tables(alloc, root)?;
    let folders = folders_of(alloc, outs.as_slice())?;
    let listen = addresses_of(alloc, outs.as_slice())?;
    if !are_distinct(folders.as_slice()) {
        return Err(Misfit::Refused);
    }
    Ok(Outs { folders, listen })
}

// The folder of a task.
fn folder_of(alloc: Global, root: &Value) -> Result<Text, Misfit>
    ensures { GivesPart result (keys.part_at keys.folder_from (codes "task") (view root.now)) }
{
    match value_at(root, "task") {
        Some(task) if Shape::Task.fits(task) => path_at(alloc, task, "folder"),
        _ => Err(Misfit::Refused),
    }
}

/// The folder of the task, which isn't taken.
#[tactic(auto, unfolding(crate::specs::Keys::task_from))]
pub fn task_of(alloc: Global, root: &Value, taken: &[Text]) -> Result<Text, Misfit>
    ensures { GivesPart result (keys.task_from taken.now (view root.now)) }
{
    let folder = folder_of(alloc, root)?;
    if is_among(&folder, taken) {
        return Err(Misfit::Refused);
    }
    Ok(folder)
}

/// At most 65,536 rules, or none where there is no such key.
pub fn rules_of(alloc: Global, root: &Value) -> Result<RenameList, Misfit>
    ensures { GivesPart result (keys.listed (tree.array_of 0 65536 keys.rule_from) (get (codes "table") (view root.now))) }
{
    match value_at(root, "table") {
        Some(rules) => array_of::<Rename>(alloc, rules, 0, RULES_MAX),
        None => Ok(RenameList::new(alloc)),
    }
}

/// The users, with distinct names; none where there is no such key.
#[tactic(auto, unfolding(crate::specs::Keys::users_from))]
pub fn users_of(alloc: Global, root: &Value) -> Result<UserList, Misfit>
    ensures users { GivesPart result (keys.users_from (view root.now)) }
    ensures size { IfOk result (λ users. length users ≤ 256) }
{
    let users = user_tables(alloc, root)?;
    if !have_distinct_names(users.as_slice()) {
        return Err(Misfit::Refused);
    }
    Ok(users)
}

// The users, or none where there is no such key.
fn user_tables(alloc: Global, root: &Value) -> Result<UserList, Misfit>
    ensures users { GivesPart result (keys.listed (tree.array_of 1 256 keys.user_from) (get (codes "user") (view root.now))) }
    ensures size { IfOk result (λ users. length users ≤ 256) }
{
    match value_at(root, "user") {
        Some(users) => array_of::<User>(alloc, users, 1, USERS_MAX),
        None => Ok(UserList::new(alloc)),
    }
}

// Whether a user of this name is there.
fn is_named(name: &Text, users: &[User]) -> bool
    ensures { result ≡ tree.is_among name.now (keys.names_of users.now) }
{
    for user in users {
        if name.bytes() == user.name.bytes() {
            return true;
        }
    }
    false
}

// Whether no two users have one name.
fn have_distinct_names(users: &[User]) -> bool
    ensures { result ≡ tree.are_distinct (keys.names_of users.now) }
{
    let mut rest = users;
    while let [user, more @ ..] = rest {
        if is_named(&user.name, more) {
            return false;
        }
        rest = more;
    }
    true
}

// Whether none of the texts is among others.
fn are_free(texts: &[Text], taken: &[Text]) -> bool
    ensures { result ≡ list_all (λ text. not (tree.is_among text taken.now)) texts.now }
{
    for text in texts {
        if is_among(text, taken) {
            return false;
        }
    }
    true
}

// Whether no two folders are equal, and none is taken.
fn are_streams(folders: &[Text], taken: &[Text]) -> bool
    ensures { result ≡ keys.are_streams taken.now folders.now }
{
    are_distinct(folders) && are_free(folders, taken)
}

// 2 to 16 folders, no two equal, that aren't taken.
fn stream_folders(alloc: Global, value: &Value, taken: &[Text]) -> Result<TextList, Misfit>
    ensures folders { GivesPart result (keys.stream_folders taken.now (view value.now)) }
    ensures size { IfOk result (λ folders. IsWithin 2 16 (length folders)) }
{
    let folders = array_of::<Text>(alloc, value, STREAMS_MIN, STREAMS_MAX)?;
    if are_streams(folders.as_slice(), taken) {
        Ok(folders)
    } else {
        Err(Misfit::Refused)
    }
}

// An out that there is.
fn from_of(value: &Value, outs: u32) -> Option<u32>
    ensures number { result ≡ keys.part_at (tree.whole_number 1 outs) (codes "from") (view value.now) }
    ensures size { IfSome result (IsWithin 1 outs) }
{
    let from = whole_number(value_at(value, "from")?, 1, u64::from(outs))?;
    Some(from as u32)
}

// The table of a split.
fn split_table(alloc: Global, value: &Value, outs: u32, taken: &[Text]) -> Result<SplitPlan, Misfit>
    ensures split { GivesPart result (keys.split_table outs taken.now (view value.now)) }
    ensures size { IfOk result (IsSplitInto outs) }
{
    if !Shape::Split.fits(value) {
        return Err(Misfit::Refused);
    }
    let Some(from) = from_of(value, outs) else {
        return Err(Misfit::Refused);
    };
    match value_at(value, "folders") {
        Some(folders) => Ok(SplitPlan {
            from,
            folders: stream_folders(alloc, folders, taken)?,
        }),
        None => Err(Misfit::Refused),
    }
}

/// The split, where there is such a key.
#[tactic(auto, unfolding(crate::specs::Keys::split_from))]
pub fn split_of(
    alloc: Global,
    root: &Value,
    outs: u32,
    taken: &[Text],
) -> Result<Option<SplitPlan>, Misfit>
    ensures split { GivesPart result (keys.split_from outs taken.now (view root.now)) }
    ensures size { IfOk result (λ split. ForSome split (IsSplitInto outs)) }
{
    match value_at(root, "split") {
        Some(value) => Ok(Some(split_table(alloc, value, outs, taken)?)),
        None => Ok(None),
    }
}
