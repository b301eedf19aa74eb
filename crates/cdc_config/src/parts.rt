//! The tables of a configuration, one by one.

ghost use Rattle.std.specs.Prelude.{◌≡◌, ◌==◌, not, option_map, IfOk, map};
ghost use Rattle.std.specs.List.{list_all};
ghost use Rattle.toml.specs.View.{view};
ghost use Rattle.cdc_config.specs.Keys as keys;
ghost use Rattle.cdc_config.specs.Tree as tree;
ghost use Rattle.cdc_config.specs.Tree.{GivesPart};

use crate::misfit::Misfit;
use crate::shape::Shape;
use crate::tree::{Part, array_of, sized_text, value_at};
use cdc_base::{Rename, Text, TextList, User};
use std::alloc::Global;
use toml::Value;

/// The most files of a node.
const FILES_MAX: usize = 65_535;

/// The bytes of a hash.
const HASH_LENGTH: usize = 20;

/// The files of a node.
impl Part for TextList {
    ghost from = { keys.node_from };

    fn read(alloc: Global, value: &Value) -> Result<TextList, Misfit> {
        if !Shape::Node.fits(value) {
            return Err(Misfit::Refused);
        }
        match value_at(value, "files") {
            Some(files) => array_of::<Text>(alloc, files, 1, FILES_MAX),
            None => Err(Misfit::Refused),
        }
    }
}

/// A folder, and an address or nothing.
#[derive(Debug, Drop)]
pub struct OutTable {
    pub folder: Text,
    pub listen: Text,
}

/// The text at a key, which isn't empty.
pub fn path_at(alloc: Global, value: &Value, key: &str) -> Result<Text, Misfit>
    ensures { GivesPart result (keys.part_at tree.path_text key.now (view value.now)) }
{
    match value_at(value, key) {
        Some(path) => Text::read(alloc, path),
        None => Err(Misfit::Refused),
    }
}

// The address of an out, empty where it has none.
fn listen_of(alloc: Global, listen: Option<&Value>) -> Result<Text, Misfit>
    ensures { GivesPart result (keys.listen_from (option_map (λ v. view v.now) listen.entry)) }
{
    match listen {
        Some(address) => Text::read(alloc, address),
        None => Ok(Text::of(alloc, "")?),
    }
}

impl Part for OutTable {
    ghost from = { keys.out_from };

    fn read(alloc: Global, value: &Value) -> Result<OutTable, Misfit> {
        if !Shape::Out.fits(value) {
            return Err(Misfit::Refused);
        }
        let folder = path_at(alloc, value, "folder")?;
        let listen = listen_of(alloc, value_at(value, "listen"))?;
        Ok(OutTable { folder, listen })
    }
}

/// The names of a table.
#[derive(Debug, Drop)]
pub struct TableNames {
    db: Text,
    table: Text,
}

// A name of 1 to 64 bytes at a key.
fn name_at(alloc: Global, value: &Value, key: &str) -> Result<Text, Misfit>
    ensures { GivesPart result (keys.part_at (tree.sized_text 1 64) key.now (view value.now)) }
{
    match value_at(value, key) {
        Some(name) => sized_text(alloc, name, 1, 64),
        None => Err(Misfit::Refused),
    }
}

// The names of a table at two keys.
fn table_at(alloc: Global, value: &Value, db: &str, table: &str) -> Result<TableNames, Misfit>
    ensures { GivesPart result (keys.table_at db.now table.now (view value.now)) }
{
    let db = name_at(alloc, value, db)?;
    let table = name_at(alloc, value, table)?;
    Ok(TableNames { db, table })
}

impl Part for Rename {
    ghost from = { keys.rule_from };

    fn read(alloc: Global, value: &Value) -> Result<Rename, Misfit> {
        if !Shape::Table.fits(value) {
            return Err(Misfit::Refused);
        }
        let old = table_at(alloc, value, "db", "table")?;
        let new = table_at(alloc, value, "to_db", "to_table")?;
        Ok(Rename {
            db: old.db,
            table: old.table,
            to_db: new.db,
            to_table: new.table,
        })
    }
}

// Whether no byte is zero.
fn has_no_zero(name: &[u8]) -> bool
    ensures { result ≡ list_all (λ byte. not (byte == 0)) name.now }
{
    name.iter().all(|byte| *byte != 0)
}

// The name of a user.
fn user_name(alloc: Global, value: &Value) -> Result<Text, Misfit>
    ensures { GivesPart result (keys.user_name (view value.now)) }
{
    let name = sized_text(alloc, value, 1, 32)?;
    if has_no_zero(name.bytes()) {
        Ok(name)
    } else {
        Err(Misfit::Refused)
    }
}

// The hash of a user, from its text.
fn hash_from(text: &str) -> Option<Option<[u8; HASH_LENGTH]>>
    ensures { result ≡ keys.hash_from text.now }
{
    if text.is_empty() {
        return Some(None);
    }
    let mut hash = [0; HASH_LENGTH];
    hex::decode_to_slice(text.as_bytes(), &mut hash).ok()?;
    Some(Some(hash))
}

// The hash of a user.
fn hash_at(value: &Value, key: &str) -> Option<Option<[u8; HASH_LENGTH]>>
    ensures { result ≡ keys.part_at keys.user_hash key.now (view value.now) }
{
    hash_from(value_at(value, key)?.as_str()?)
}

impl Part for User {
    ghost from = { keys.user_from };

    fn read(alloc: Global, value: &Value) -> Result<User, Misfit> {
        if !Shape::User.fits(value) {
            return Err(Misfit::Refused);
        }
        let name = match value_at(value, "name") {
            Some(name) => user_name(alloc, name)?,
            None => return Err(Misfit::Refused),
        };
        match hash_at(value, "hash") {
            Some(hash) => Ok(User { name, hash }),
            None => Err(Misfit::Refused),
        }
    }
}
